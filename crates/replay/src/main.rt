// The stored sample of the published Rust's answers (oracle/README.md, 'The stored sample'), replayed through the planner's entries and compared bit for bit.
// It prints how many runs of each kind agree and how many differ, or only `malformed` where the file isn't of that form. Each kind has its own pass over
// the file, so that a pass carries two counts and nothing else.

#![tactic(auto)]

mod sample_day; // a day as its runs are replayed on it
mod improve; // the kinds of run that change one list
mod rearrange; // the kinds of run that change all lists
mod cross; // the kind of run that has a fleet
mod runs; // the kinds of run that change nothing
mod score; // how many runs of a kind agree

ghost use Rattle.std.specs.Prelude.{◌≡◌, ◌≤◌, IfOk, length};

use sample::kind::Kind;
use sample::stored::Run;
use sample::whole::file_is_whole;
use sample_day::SampleDay;
use std::io;
use std::io::Read;

// Called and not compiled into its callers, so that the stack has the tables of one kind at a time.
#[inline(never)]
fn line<F: Fn(Run, &SampleDay) -> Option<bool>>(
    rt: &impl Print,
    data: &[u8],
    kind: Kind,
    agrees: F,
) -> io::Result<()>
    requires { F.IsAlwaysCallable agrees }
{
    let score = score::of_file(data, kind, &agrees).unwrap_or_default();
    println!(rt; "{kind} {} agree, {} differ", score.agree, score.differ)
}

fn checks(rt: &impl Print, data: &[u8]) -> io::Result<()> {
    line(rt, data, Kind::Feasible, runs::feasible)?;
    line(rt, data, Kind::Eval, runs::eval)?;
    line(rt, data, Kind::Schedule, runs::schedule)?;
    line(rt, data, Kind::Distance, runs::distance)
}

fn engines_of_a_list(rt: &impl Print, data: &[u8]) -> io::Result<()> {
    line(rt, data, Kind::TwoOpt, improve::two_opt)?;
    line(rt, data, Kind::OrOpt, improve::or_opt)?;
    line(rt, data, Kind::ThreeOpt, improve::three_opt)
}

fn engines_of_all_lists(rt: &impl Print, data: &[u8]) -> io::Result<()> {
    line(rt, data, Kind::Relocate, rearrange::relocate)?;
    line(
        rt,
        data,
        Kind::RelocateWithoutPruning,
        rearrange::relocate_without_pruning,
    )?;
    line(rt, data, Kind::Exchange, rearrange::exchange)?;
    line(rt, data, Kind::Cross, cross::agrees)
}

fn replay(rt: &impl Print, data: &[u8]) -> io::Result<()> {
    if !file_is_whole(data) {
        return println!(rt; "malformed");
    }
    checks(rt, data)?;
    engines_of_a_list(rt, data)?;
    engines_of_all_lists(rt, data)
}

// Room for the file, 524,288 bytes.
fn room() -> [u8; 524288]
    ensures { 524288 ≡ length result }
{
    [0; 524288]
}

// Reads until the buffer is full or the input ends, and says how many bytes came.
// The loop counts no index: a read may give less than there is room for, and one that gives nothing ends it.
fn read_full(input: &mut impl Read, buffer: &mut [u8]) -> io::Result<usize>
    ensures { IfOk result (λ n. n ≤ length buffer.new) }
{
    let mut at = 0;
    while at < buffer.len() {
        let n = input.read(&mut buffer[at..])?;
        if n == 0 {
            return Ok(at);
        }
        at += n;
    }
    Ok(at)
}

fn main(rt: HostRuntime) -> io::Result<()> {
    let mut buffer = room();
    let n = read_full(&mut rt.stdin(), &mut buffer)?;
    replay(&rt, &buffer[..n])
}
