// Inner: what the library's functions answer, as one number, for callers in other languages. Only waderarmoire calls it.
#![tactic(auto)]

ghost use Rattle.std.specs.Prelude.{◌≡◌};
ghost use Rattle.packing.specs.Packed.{packed_refusal, packed_text_refusal, packed, packed_replay, packed_regions, sums_after, packed_verdict, packed_name};
ghost use Rattle.packing.specs.PackedSides.{packed_first, packed_side};

use exchanges::{Answer, Answers};
use model::{Refusal, TextRefusal};
use sheet::Range;
use verdicts::Verdict;

// A refusal as one number: its number times 2^40, and its line times 2^20.
fn pack_refusal(refusal: Refusal) -> u64
    ensures { result ≡ packed_refusal refusal }
{
    refusal.number % 4096 * 1099511627776 + refusal.line as u64 % 1048576 * 1048576
}

// A refusal of one of two texts as one number: the text times 2^52 besides.
fn pack_text_refusal(refusal: TextRefusal) -> u64
    ensures { result ≡ packed_text_refusal refusal }
{
    refusal.text % 4096 * 4503599627370496
        + refusal.number % 4096 * 1099511627776
        + refusal.line as u64 % 1048576 * 1048576
}

// An outcome as one number: the refusal, or the report's length; or the count of the sites that the order of work takes.
pub fn pack(outcome: Result<usize, Refusal>) -> u64
    ensures { result ≡ packed outcome }
{
    match outcome {
        Ok(length) => length as u64 % 1048576,
        Err(refusal) => pack_refusal(refusal),
    }
}

// What a replay comes to as one number: the refusal, or the count of lines answered.
pub fn pack_replay(outcome: Result<usize, TextRefusal>) -> u64
    ensures { result ≡ packed_replay outcome }
{
    match outcome {
        Ok(count) => count as u64 % 1048576,
        Err(refusal) => pack_text_refusal(refusal),
    }
}

// What the first step of a region comes to as one number: the refusal, or the size that is shown.
pub fn pack_first(first: Result<u64, Refusal>) -> u64
    ensures { result ≡ packed_first first }
{
    match first {
        Ok(size) => size % 1048576,
        Err(refusal) => pack_refusal(refusal),
    }
}

// What the second step of a region comes to as one number: the refusal; or the number of trimmed sizes times 2^30, and their sum.
pub fn pack_side(outcome: Result<Answer, Refusal>) -> u64
    ensures { result ≡ packed_side outcome }
{
    match outcome {
        Ok(answer) => answer.count as u64 % 1024 * 1073741824 + answer.sum % 1073741824,
        Err(refusal) => pack_refusal(refusal),
    }
}

// What an exchange comes to as one number: the counts of both regions, the first times 2^20; or the refusal.
pub fn pack_regions(outcome: Result<Answers, TextRefusal>) -> u64
    ensures { result ≡ packed_regions outcome }
{
    match outcome {
        Ok(both) => both.first.count as u64 % 1048576 * 1048576
            + both.second.count as u64 % 1048576,
        Err(sheet) => pack_text_refusal(sheet),
    }
}

// The sums of both regions into the caller's two places, which keep their values on a refusal.
pub fn store_sums(outcome: Result<Answers, TextRefusal>, sums: &mut [u64; 2])
    ensures { sums.new ≡ sums_after outcome sums.old }
{
    if let Ok(both) = outcome {
        sums[0] = both.first.sum;
        sums[1] = both.second.sum;
    }
}

// What judging comes to as one number: the refusal; or twice the total, and 1 more for yes.
pub fn pack_verdict(outcome: Result<Verdict, TextRefusal>) -> u64
    ensures { result ≡ packed_verdict outcome }
{
    match outcome {
        Ok(verdict) => verdict.total % 4294967296 * 2 + u64::from(verdict.largest),
        Err(refusal) => pack_text_refusal(refusal),
    }
}

// Where a name stands as one number: the offset of its first byte times 2^20, and how many bytes it has; 0 of an empty one.
pub fn pack_name(range: Range) -> u64
    ensures { result ≡ packed_name (range.start, range.end) }
{
    if range.end <= range.start {
        return 0;
    }
    range.start as u64 % 1048576 * 1048576 + (range.end - range.start) as u64 % 1048576
}
