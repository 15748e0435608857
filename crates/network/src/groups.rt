// The rigid groups: steps whose times differ by the same number of seconds in every timetable.
ghost use Rattle.std.specs.Prelude.{◌≡◌, ◌<◌, ◌≤◌, length, drop};
ghost use Rattle.network.specs.Distances.{distance};
ghost use Rattle.network.specs.Groups.{GroupTable, Leads};

use crate::distances::Distances;
use crate::tables::GroupEntry;

impl Distances<'_> {
    /// Writes the group of every step, and answers how many groups there are.
    pub(crate) fn find_groups(&self, groups: &mut [GroupEntry]) -> usize
        requires { self.now.n ≤ length groups.old }
        ensures table { GroupTable self.now.n (distance self.now) groups.new result }
        ensures count { result ≤ self.now.n }
        ensures behind { drop self.now.n groups.new ≡ drop self.now.n groups.old }
    {
        let mut count = 0;
        let front = &mut groups[..self.n];
        for (step, entry) in front.iter_mut().enumerate() {
            let leader = self.leader_of(step);
            *entry = GroupEntry {
                leader: leader as u8,
                offset: self.at(leader, step) as u32,
            };
            // Counted in the turn that knows the leader.
            if leader == step {
                count += 1;
            }
        }
        count
    }

    // The leader of a step's group: the lowest-numbered of its earliest members.
    fn leader_of(&self, step: usize) -> usize
        requires { step < self.now.n }
        ensures { Leads self.now.n (distance self.now) step result }
    {
        let mut leader = step;
        // From the highest number down, so that of equally early members the lowest stays. No `min_by_key`: its key would have to hold the
        // gap and the number.
        for member in (0..self.n).rev() {
            if self.rigid(step, member) {
                let gap = self.at(step, member);
                if gap <= self.at(step, leader) {
                    leader = member;
                }
            }
        }
        leader
    }
}
