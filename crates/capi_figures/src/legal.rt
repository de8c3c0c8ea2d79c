// Functions that ask for a list that holds the figures: an accepted answer's stand in its front, and 0 is returned; a refusal leaves it, and
// its number is returned.
ghost use Rattle.std.specs.Prelude.{◌≡◌, ◌≤◌, length};
ghost use Rattle.levels.specs.Answers.{rooted_meaning, ends_meaning, combined_meaning};
ghost use Rattle.numbering_measures.specs.Answer.{meaning as measuresMeaning};
ghost use Rattle.mesh.specs.Answer.{meaning as meshMeaning};
ghost use Rattle.numbering.specs.Answer.{meaning as run_meaning};
ghost use Rattle.numbering_report.specs.Answers.{direction_meaning, answer_meaning};
ghost use Rattle.store_elimination.specs.Answer.{meaning as eliminationMeaning};
ghost use Rattle.store_map.specs.Answer.{meaning as mapMeaning};
ghost use Rattle.capi_figures.specs.Figures.{number, written, rooted_list, ends_list, combined_list, measures_list, direction_number, report_list, run_list, elimination_list, map_list, mesh_list};

use crate::list::put;
use levels::answer::CombinedFigures;
use levels::shape::PartEnds;
use levels_rooted::shape::Figures;
use numbering_ones::Measures;
use numbering_report::answer::{Direction, PartReport};
use numbering_whole::shape::RunFigures;
use refusals::Refusal;
use store_map::MapFigures;
use store_unknowns::answer::Counts;

// Rooted levels: depth, width, count reached.
pub fn put_rooted(answer: Result<Figures, Refusal>, list: &mut [u64]) -> u16
    requires { 3 ≤ length list.old }
    ensures value { result ≡ number (rooted_meaning answer) }
    ensures list_value { list.new ≡ written rooted_list (rooted_meaning answer) list.old }
{
    match answer {
        Err(refusal) => u16::from(refusal),
        Ok(levels) => put(
            &[
                u64::from(levels.depth),
                u64::from(levels.width),
                u64::from(levels.reached),
            ],
            list,
        ),
    }
}

// The ends of a part: v, u, k, the width at v, the width at u, passes.
pub fn put_ends(answer: Result<PartEnds, Refusal>, list: &mut [u64]) -> u16
    requires { 6 ≤ length list.old }
    ensures value { result ≡ number (ends_meaning answer) }
    ensures list_value { list.new ≡ written ends_list (ends_meaning answer) list.old }
{
    match answer {
        Err(refusal) => u16::from(refusal),
        Ok(e) => put(
            &[
                u64::from(e.v),
                u64::from(e.u),
                u64::from(e.k),
                u64::from(e.widthv),
                u64::from(e.widthu),
                u64::from(e.passes),
            ],
            list,
        ),
    }
}

// The combined levels of a part: k, the greatest level count.
pub fn put_combined(answer: Result<CombinedFigures, Refusal>, list: &mut [u64]) -> u16
    requires { 2 ≤ length list.old }
    ensures value { result ≡ number (combined_meaning answer) }
    ensures list_value { list.new ≡ written combined_list (combined_meaning answer) list.old }
{
    match answer {
        Err(refusal) => u16::from(refusal),
        Ok(f) => put(&[u64::from(f.k), u64::from(f.width)], list),
    }
}

// The measures: bandwidth, profile, front.
pub fn put_measures(answer: Result<Measures, Refusal>, list: &mut [u64]) -> u16
    requires { 3 ≤ length list.old }
    ensures value { result ≡ number (measuresMeaning answer) }
    ensures list_value { list.new ≡ written measures_list (measuresMeaning answer) list.old }
{
    match answer {
        Err(refusal) => u16::from(refusal),
        Ok(m) => put(
            &[
                u64::from(m.bandwidth),
                u64::from(m.profile),
                u64::from(m.front),
            ],
            list,
        ),
    }
}

// A direction as a figure: 0 Forward, 1 Reversed.
fn direction(d: Direction) -> u64
    ensures { result ≡ direction_number (direction_meaning d) }
{
    match d {
        Direction::Forward => 0,
        Direction::Reversed => 1,
    }
}

// The report of a part: v and u as now named, k, width, passes, direction.
pub fn put_report(answer: Result<PartReport, Refusal>, list: &mut [u64]) -> u16
    requires { 6 ≤ length list.old }
    ensures value { result ≡ number (answer_meaning answer) }
    ensures list_value { list.new ≡ written report_list (answer_meaning answer) list.old }
{
    match answer {
        Err(refusal) => u16::from(refusal),
        Ok(r) => {
            let d = r.direction;
            put(
                &[
                    u64::from(r.v),
                    u64::from(r.u),
                    u64::from(r.k),
                    u64::from(r.width),
                    u64::from(r.passes),
                    direction(d),
                ],
                list,
            )
        }
    }
}

// The whole run: nodes, parts, bandwidth, profile, front, levels, width.
pub fn put_run(answer: Result<RunFigures, Refusal>, list: &mut [u64]) -> u16
    requires { 7 ≤ length list.old }
    ensures value { result ≡ number (run_meaning answer) }
    ensures list_value { list.new ≡ written run_list (run_meaning answer) list.old }
{
    match answer {
        Err(refusal) => u16::from(refusal),
        Ok(f) => put(
            &[
                u64::from(f.nodes),
                u64::from(f.parts),
                u64::from(f.bandwidth),
                u64::from(f.profile),
                u64::from(f.front),
                u64::from(f.levels),
                u64::from(f.width),
            ],
            list,
        ),
    }
}

// The elimination: marks that are 1, newly joined pairs.
pub fn put_elimination(answer: Result<Counts, Refusal>, list: &mut [u64]) -> u16
    requires { 2 ≤ length list.old }
    ensures value { result ≡ number (eliminationMeaning answer) }
    ensures list_value { list.new ≡ written elimination_list (eliminationMeaning answer) list.old }
{
    match answer {
        Err(refused) => u16::from(refused),
        Ok(m) => put(&[u64::from(m.marked), u64::from(m.new)], list),
    }
}

// The store map: the profile, the number of unknowns.
pub fn put_map(answer: Result<MapFigures, Refusal>, list: &mut [u64]) -> u16
    requires { 2 ≤ length list.old }
    ensures value { result ≡ number (mapMeaning answer) }
    ensures list_value { list.new ≡ written map_list (mapMeaning answer) list.old }
{
    match answer {
        Err(refusal) => u16::from(refusal),
        Ok(f) => put(&[u64::from(f.profile), u64::from(f.unknowns)], list),
    }
}

// The mesh call: the entry count.
pub fn put_entries(answer: Result<u32, Refusal>, list: &mut [u64]) -> u16
    requires { 1 ≤ length list.old }
    ensures value { result ≡ number (meshMeaning answer) }
    ensures list_value { list.new ≡ written mesh_list (meshMeaning answer) list.old }
{
    match answer {
        Err(refusal) => u16::from(refusal),
        Ok(entries) => put(&[u64::from(entries)], list),
    }
}
