// What two or three distances say.
ghost use Rattle.std.specs.Prelude.{◌≡◌, ◌<◌, MatchBool};
ghost use Rattle.network.specs.Distances.{distance};
ghost use Rattle.network.specs.Groups.{Rigid};
ghost use Rattle.network.specs.Links.{Dominates};

use super::Distances;

impl Distances<'_> {
    /// The distance from step `i` to step `j`.
    #[tactic(auto, unfolding(crate::specs::Grid::entry_at))]
    pub(crate) fn at(&self, i: usize, j: usize) -> i32
        requires row { i < self.now.n }
        requires column { j < self.now.n }
        ensures { result ≡ distance self.now i j }
    {
        self.cells[i * self.n + j]
    }

    /// Whether two steps are in one group: neither can move against the other.
    pub(crate) fn rigid(&self, i: usize, j: usize) -> bool
        requires row { i < self.now.n }
        requires column { j < self.now.n }
        ensures { MatchBool result (Rigid (distance self.now) i j) (Rigid (distance self.now) i j → ⊥) }
    {
        self.at(i, j) + self.at(j, i) == 0
    }

    /// Whether the gap from a to c is the sum of the gaps through b, and b lies on the side that the kind of the link asks for.
    pub(crate) fn dominates(&self, a: usize, b: usize, c: usize) -> bool
        requires from { a < self.now.n }
        requires via { b < self.now.n }
        requires to { c < self.now.n }
        ensures { MatchBool result (Dominates (distance self.now) a b c) (Dominates (distance self.now) a b c → ⊥) }
    {
        let whole = self.at(a, c);
        let first = self.at(a, b);
        let second = self.at(b, c);
        if first + second != whole {
            return false;
        }
        if whole >= 0 { second >= 0 } else { first < 0 }
    }
}
