// The span of a range sheet (document 02, Card 11): sizes still under survey are known as between a low and a high one; the report tells what the total and
// the trimmed sizes lie between.
#![tactic(auto)]

ghost use Rattle.std.specs.Prelude.{◌≡◌, ◌≤◌, leb, length, take};
ghost use Rattle.model.specs.Edition.{ranges_high};
ghost use Rattle.sheet.specs.Sheet.{read_as};
ghost use Rattle.sheet.specs.Reading.{reading};
ghost use Rattle.text_writers.specs.Wrote.{Room};
ghost use Rattle.report.specs.Span.{span_text};
ghost use Rattle.report.specs.SpanShown.{span_by, Ranges};
ghost use Rattle.report.specs.Lent.{span_in, CanShowSpan};
ghost use Rattle.planner.specs.Outcome.{deliver};
ghost use Rattle.spans.specs.Outcome.{spanned};
ghost use Rattle.spans.specs.Ready.{Apart, sizes_of};

use model::{REPORT, Refusal, SITES};
use report::{Names, RangeLists, SpanLists};
use tree::AcceptedTree;
use tree_links::Chart;

// Whether the report of lists goes into so many bytes. Its length is measured only where there are fewer than the longest report has.
fn fits(lists: SpanLists, room: usize) -> bool
    requires { CanShowSpan lists }
    ensures { result ≡ leb (length (span_text (span_in lists.entry))) room }
{
    if REPORT <= room {
        return true;
    }
    let mut none = [0u8; 1];
    let length = report::write_span(lists, &mut none);
    length <= room
}

// The report of lists into the buffer; a buffer too short for it keeps its bytes.
fn deliver(
    sheet: &[u8],
    start: &[usize],
    end: &[usize],
    one: &[usize],
    two: &[usize],
    low: &[u64],
    high: &[u64],
    least: &[u64],
    greatest: &[u64],
    lower: u64,
    upper: u64,
    report: &mut [u8],
) -> Result<usize, Refusal>
    requires { Ranges sheet.now start.now end.now one.now two.now low.now high.now least.now greatest.now
        × Room 0 (span_text (span_by sheet.now start.now end.now one.now two.now low.now high.now least.now greatest.now lower upper)) }
    ensures told { result ≡ (deliver (span_text
        (span_by sheet.now start.now end.now one.now two.now low.now high.now
        least.now greatest.now lower upper)) report.old).outcome }
    ensures left { report.new ≡ (deliver (span_text
        (span_by sheet.now start.now end.now one.now two.now low.now high.now
        least.now greatest.now lower upper)) report.old).buffer }
{
    let lists = SpanLists {
        lower,
        upper,
        names: Names { sheet, start, end },
        ranges: RangeLists {
            one,
            two,
            low,
            high,
            least,
            greatest,
        },
    };
    if fits(lists, report.len()) {
        let length = report::write_span(lists, report);
        return Ok(length);
    }
    Err(Refusal { number: 9, line: 0 })
}

// The lists of an accepted range sheet: its tree is charted once, its low and its high sizes are trimmed, and their span is reported.
fn span_lists(
    sheet: &[u8],
    start: &[usize],
    end: &[usize],
    n: usize,
    one: &[usize],
    two: &[usize],
    marks: &[u8],
    low: &[u64],
    high: &[u64],
    report: &mut [u8],
) -> Result<usize, Refusal>
    requires { Apart sheet.now start.now end.now n one.now two.now marks.now low.now high.now }
    ensures told { result ≡ (spanned sheet.now report.old).outcome }
    ensures left { report.new ≡ (spanned sheet.now report.old).buffer }
{
    let m = one.len();
    let mut least = [0u64; SITES];
    let mut greatest = [0u64; SITES];
    let tree = AcceptedTree {
        sites: n,
        one,
        two,
        marks,
        capacity: low,
    };
    let chart = Chart::of(tree);
    let lower = region_sizes::trim(&chart, low, 0, &mut least);
    let upper = region_sizes::trim(&chart, high, 0, &mut greatest);
    deliver(
        sheet,
        start,
        end,
        one,
        two,
        low,
        high,
        &least[..m],
        &greatest[..m],
        lower,
        upper,
        report,
    )
}

// The lists of an accepted range sheet with n sites and m links, each list lent as far as there are sites or links.
fn span_parts<'a>(
    sheet: &[u8],
    start: &'a [usize],
    end: &'a [usize],
    n: usize,
    m: usize,
    one: &'a [usize],
    two: &'a [usize],
    mark: &'a [u8],
    low: &'a [u64],
    high: &[u64],
    report: &mut [u8],
) -> Result<usize, Refusal>
    requires { Apart sheet.now start.now end.now n (take m one.now) (take m two.now) (take n mark.now) (take m low.now) (take m high.now)
        × (m ≤ length one.now) × (m ≤ length two.now) × (n ≤ length mark.now) × (m ≤ length low.now) × (m ≤ length high.now) }
    ensures told { result ≡ (spanned sheet.now report.old).outcome }
    ensures left { report.new ≡ (spanned sheet.now report.old).buffer }
{
    span_lists(
        sheet,
        start,
        end,
        n,
        &one[..m],
        &two[..m],
        &mark[..n],
        &low[..m],
        &high[..m],
        report,
    )
}

// The high sizes of a range sheet, in the order of its links.
fn high_sizes(sheet: &[u8]) -> Result<[u64; SITES], Refusal>
    ensures { result ≡ sizes_of (reading (read_as ranges_high sheet.now)) }
{
    let network = sheet::read_high(sheet)?;
    Ok(network.capacity)
}

// The span of a range sheet: writes the report headed `span` into the buffer and tells its length, or refuses the sheet and leaves the buffer as it was.
pub fn span(sheet: &[u8], report: &mut [u8]) -> Result<usize, Refusal>
    ensures told { result ≡ (spanned sheet.now report.old).outcome }
    ensures left { report.new ≡ (spanned sheet.now report.old).buffer }
{
    match &sheet::read_low(sheet) {
        Ok(network) => {
            let high = high_sizes(sheet)?;
            span_parts(
                sheet,
                &network.start,
                &network.end,
                network.sites,
                network.links,
                &network.one,
                &network.two,
                &network.mark,
                &network.capacity,
                &high,
                report,
            )
        }
        Err(refusal) => Err(*refusal),
    }
}
