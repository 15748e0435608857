// The two lawful orders of a run over lent tables and a compilation: into other tables at any time, into the same ones after the run's last use.
// A third order, compiling into tables that a run still reads, does not compile: the gate tries that line.
ghost use Rattle.std.specs.Prelude.{◌≡◌, length};
ghost use Rattle.network.specs.Compiled.{Decided, Tabled};
ghost use Rattle.network.specs.Refusals.{early_refusal};
ghost use Rattle.pacer.specs.Calls.{look_answer};

use bounds::Source;
use network::{Compiled, GroupEntry, Link, Refusal, compile};
use pacer::{NoSuchStep, Run, Window};

/// Compiles a source into tables while a run over other tables lives, and then asks the run for step 0.
pub fn compile_other_tables_during_a_run<S: Source>(
    run: &Run<'_>,
    source: &S,
    distances: &mut [i32],
    groups: &mut [GroupEntry],
    links: &mut [Link],
) -> (Result<Compiled, Refusal>, Result<Window, NoSuchStep>)
    ensures answer { Decided (S.meaning source.now) (early_refusal (S.meaning source.now) (length distances.old) (length groups.old) (length links.old)) result.0 }
    ensures tables { Tabled (S.meaning source.now) result.0 distances.new groups.new links.new }
    ensures seen { result.1 ≡ look_answer run.now.tables run.now.state 0 }
{
    let compiled = compile(source, distances, groups, links);
    (compiled, run.look(0))
}

/// Opens a run over the tables of a source, asks it for step 0, and compiles the source again into the same tables.
pub fn compile_same_tables_after_a_run<S: Source>(
    source: &S,
    distances: &mut [i32],
    groups: &mut [GroupEntry],
    links: &mut [Link],
) -> Result<Compiled, Refusal>
    ensures answer { Decided (S.meaning source.now) (early_refusal (S.meaning source.now) (length distances.old) (length groups.old) (length links.old)) result }
    ensures tables { Tabled (S.meaning source.now) result distances.new groups.new links.new }
{
    let first = compile(source, distances, groups, links)?;
    let Ok(run) = Run::open(source.steps(), first.links, groups, links) else {
        return Ok(first);
    };
    let _ = run.look(0);
    compile(source, distances, groups, links)
}
