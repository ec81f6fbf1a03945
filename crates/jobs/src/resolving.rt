// The job resolve: the name of the root of a syntax image at a phase. The root is read where it lies: nothing of it is stored in the table.
ghost use Rattle.std.specs.Prelude.{◌≡◌, [], ◌+◌, ◌*◌, ◌≤◌, length};
ghost use Rattle.model.specs.Jobs.{resolve_ending};
ghost use Rattle.scopes.specs.Sets.{scopes_of};
ghost use Rattle.store.specs.Words.{binds_of};
ghost use Rattle.store.specs.Rivalry.{decided};
ghost use Rattle.store.specs.Sizes.{binding_size, store_size};
ghost use Rattle.finish.specs.Ends.{ending_of, EndsAs};
ghost use Rattle.image.specs.Judging.{syntax_kind, Good};
ghost use Rattle.jobs.specs.Working.{resolving, job_ending};
ghost use Rattle.jobs.specs.Naming.{found_ending, RootEnds, Resolved};
ghost use Rattle.numbers.specs.Limits.{most_image};
ghost use Rattle.scopes.specs.Sets.{set_scopes};

use crate::loading;
use finish::Ending;
use head::Counts;
use image::Judgement;
use numbers::Cursor;
use refusals::Refusal;
use scopes::{ScopeSet, Symbol};
use store::resolving::Resolving;

// The name of the identifier with symbol x and set s, after so many units.
fn resolve_name(store: &[u64], count: u32, x: Symbol, s: ScopeSet, units: u32) -> Ending
    requires { count * binding_size ≤ length store.now }
    ensures { ending_of [] result ≡ found_ending (decided x.0 (scopes_of s) (binds_of store.now count)) units }
{
    match store::resolving::resolve(store, count, x, s) {
        Ok(n) => Ending::Named(n, units),
        Err(rivals) => Ending::Stopped(Refusal::Ambiguous, rivals, units),
    }
}

// The root, known to be whole, charged for by so many units: it is read again as far as the identifier that it must be.
fn resolve_root(
    c: Cursor,
    s: &[u8],
    counts: Counts,
    phase: u32,
    units: u32,
    store: &[u64],
    count: u32,
) -> Result<Ending, Refusal>
    requires image { (c.at + length s.now ≤ most_image) × (counts.scopes ≤ set_scopes) }
    requires held { count * binding_size ≤ length store.now }
    ensures { RootEnds counts s.now phase (binds_of store.now count) units result }
{
    let (tag, past) = c.number_up_to(s, Refusal::Layout, 5)?;
    if tag != 0 {
        return Ok(Ending::Refused(Refusal::NoRule, units));
    }
    let rest = c.after(s, past);
    let (three, behind) = sets::read_sets(past, rest, counts.scopes)?;
    let (x, _) = behind.number_below(past.after(rest, behind), counts.symbols)?;
    let set = forms::set_at(three, phase);
    Ok(resolve_name(store, count, Symbol(x), set, units))
}

// The root of a judged image, charged for.
fn resolve_loaded(image: &[u8], j: Judgement, store: &[u64], phase: u32) -> Ending
    requires good { Good syntax_kind image.now store.now j }
    requires wide { store_size ≤ length store.now }
    ensures { Resolved image.now store.now j phase result }
{
    let start = Cursor { at: 0 };
    let root = Cursor { at: j.root };
    let rest = start.after(image, root);
    let counts = j.front.head.counts();
    match resolve_root(root, rest, counts, phase, j.size, store, j.bindings) {
        Ok(ending) => ending,
        Err(f) => Ending::Refused(f, 0),
    }
}

// The image past the test of the phase, with words for its bindings.
fn resolve_image(image: &[u8], store: &mut [u64], phase: u32, budget: u32) -> Ending
    requires { store_size ≤ length store.old }
    ensures { EndsAs (job_ending (resolving phase) budget 0 image.now) [] [] result }
{
    match image::judge_syntax(image, store) {
        Ok(j) => match loading::begin(j, budget) {
            Ok(_) => resolve_loaded(image, j, store, phase),
            Err(f) => loading::stopped(f, budget),
        },
        Err(f) => Ending::Refused(f, 0),
    }
}

// How the job ends.
pub fn resolve_work(image: &[u8], phase: u32, budget: u32) -> Ending
    ensures { EndsAs (resolve_ending image.now phase budget) [] [] result }
{
    if table::Sets::LAST_PHASE < phase {
        return Ending::Refused(Refusal::NoPhase, 0);
    }
    let mut store = [0u64; Resolving::STORE];
    resolve_image(image, &mut store, phase, budget)
}
