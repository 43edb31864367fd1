//! Loads: sources by their terms.

ghost use Rattle.std.specs.Prelude.{◌≡◌, ◌≤◌, All, IfOk, length, map};
ghost use Rattle.cbsrun_simulate.specs.Drawing.{AreListed, IsLawful, listed_at, pending, released_by_all};

use crate::merged::Merged;
use crate::source::Source;
use crate::terms::SourceTerms;
use cbs_rules::LIMIT;
use std::alloc::{AllocError, Allocator};

/// Returns the ticks that are listed of the source at a place, none if they are drawn.
fn listed_at(listed: &[Vec<u64>], place: usize) -> &[u64]
    ensures { result.now ≡ listed_at (map (λ v. v.items) listed.now) place }
{
    match listed.get(place) {
        Some(ticks) => ticks,
        None => &[],
    }
}

/// Returns the releases before the tick `until` of sources with these terms. The sources are numbered from 0, and one
/// seed serves them all. `listed` has the nominal ticks of each source that are listed, none if they are drawn. The only
/// error is out of memory.
///
/// Each of the terms must be within the limits that [`SourceTerms`] names, and what is listed of it as [`Source::new`]
/// says. There are at most 65,536 of them, and `until` is at most [`LIMIT`].
pub fn load_of<'a, A: Allocator + Clone>(
    alloc: A,
    terms: &[SourceTerms],
    listed: &'a [Vec<u64>],
    until: u64,
    seed: u64,
) -> Result<Merged<Source<'a>, A>, AllocError>
    requires lawful { All IsLawful terms.now }
    requires listed { AreListed terms.now (map (λ v. v.items) listed.now) }
    requires few { length terms.now ≤ 65536 }
    requires end { until ≤ LIMIT }
    ensures { IfOk result (λ load. map pending load
        ≡ released_by_all 0 terms.now (map (λ v. v.items) listed.now) until seed) }
{
    let mut sources = Vec::with_capacity(alloc.clone()?, terms.len())?;
    for (place, source) in terms.iter().enumerate() {
        let listed = listed_at(listed, place);
        sources.push(Source::new(place as u16, source, listed, until, seed))?;
    }
    Merged::new(alloc, sources)
}
