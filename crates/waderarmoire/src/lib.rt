// The planner as a library for other languages.
#![tactic(auto)]

ghost use Rattle.std.specs.Prelude.{◌≡◌};
ghost use Rattle.model.specs.Edition.{editions};
ghost use Rattle.planner.specs.Outcome.{planned, planned_whole};
ghost use Rattle.orders.specs.Outcome.{order_of};
ghost use Rattle.logs.specs.Outcome.{replayed};
ghost use Rattle.exchanges.specs.Outcome.{exchanged};
ghost use Rattle.sides.specs.Outcome.{first_shown, answered};
ghost use Rattle.spans.specs.Outcome.{spanned};
ghost use Rattle.verdicts.specs.Outcome.{judged};
ghost use Rattle.sheet.specs.Sheet.{name_range};
ghost use Rattle.text_writers.specs.Wrote.{Wrote};
ghost use Rattle.report_words.specs.Words.{words};
ghost use Rattle.report_words.specs.TwoTexts.{words_of};
ghost use Rattle.report_words.specs.TwoSheets.{words_of_sheets};
ghost use Rattle.plan_words.specs.PlanWords.{words_judged};
ghost use Rattle.packing.specs.Packed.{packed, packed_replay, packed_regions, sums_after, packed_verdict, packed_name};
ghost use Rattle.packing.specs.PackedSides.{packed_first, packed_side};

// Plans a sheet into the caller's buffer, as planner::plan does, and tells the outcome as one number.
#[unsafe(no_mangle)]
pub extern "C" fn waderarmoire_plan(sheet: &[u8], report: &mut [u8]) -> u64
    ensures told { result ≡ packed (planned editions sheet.now report.old).outcome }
    ensures left { report.new ≡ (planned editions sheet.now report.old).buffer }
{
    packing::pack(planner::plan(sheet, report))
}

// Plans a sheet in whole circuits into the caller's buffer, as planner::whole does, and tells the outcome as one number.
#[unsafe(no_mangle)]
pub extern "C" fn waderarmoire_whole(sheet: &[u8], report: &mut [u8]) -> u64
    ensures told { result ≡ packed (planned_whole editions sheet.now report.old).outcome }
    ensures left { report.new ≡ (planned_whole editions sheet.now report.old).buffer }
{
    packing::pack(planner::whole(sheet, report))
}

// Writes the order of work over a sheet into the caller's list, as orders::order does, and tells the outcome as one number.
#[unsafe(no_mangle)]
pub extern "C" fn waderarmoire_order(sheet: &[u8], list: &mut [usize]) -> u64
    ensures told { result ≡ packed (order_of editions sheet.now list.old).outcome }
    ensures left { list.new ≡ (order_of editions sheet.now list.old).list }
{
    packing::pack(orders::order(sheet, list))
}

// Replays a booking log over a sheet into the caller's list of answers, as logs::replay does, and tells the outcome as one number.
#[unsafe(no_mangle)]
pub extern "C" fn waderarmoire_replay(sheet: &[u8], log: &[u8], answers: &mut [u64]) -> u64
    ensures told { result ≡ packed_replay (replayed editions sheet.now log.now answers.old).outcome }
    ensures left { answers.new ≡ (replayed editions sheet.now log.now answers.old).list }
{
    packing::pack_replay(logs::replay(sheet, log, answers))
}

// Tells a region's first trimmed size of the link that two names mean, as sides::first_size does, as one number.
#[unsafe(no_mangle)]
pub extern "C" fn waderarmoire_region_first(sheet: &[u8], name: &[u8], name2: &[u8]) -> u64
    ensures { result ≡ packed_first (first_shown editions sheet.now name.now name2.now) }
{
    packing::pack_first(sides::first_size(sheet, name, name2))
}

// Writes the trimmed sizes that a region is given for its neighbour's number into the caller's list, as sides::answer does, and tells the outcome as one
// number.
#[unsafe(no_mangle)]
pub extern "C" fn waderarmoire_region_answer(
    sheet: &[u8],
    name: &[u8],
    name2: &[u8],
    number: u64,
    sizes: &mut [u64],
) -> u64
    ensures told { result ≡ packed_side (answered editions sheet.now name.now name2.now number
        sizes.old).outcome }
    ensures left { sizes.new
        ≡ (answered editions sheet.now name.now name2.now number sizes.old).list }
{
    packing::pack_side(sides::answer(sheet, name, name2, number, sizes))
}

// Exchanges between two regions into the caller's lists, as exchanges::exchange does, writes their sums and tells the outcome as one number.
#[unsafe(no_mangle)]
pub extern "C" fn waderarmoire_regions(
    first: &[u8],
    second: &[u8],
    sizes: &mut [u64],
    sizes2: &mut [u64],
    sums: &mut [u64; 2],
) -> u64
    ensures told { result
        ≡ packed_regions (exchanged editions first.now second.now sizes.old sizes2.old).outcome }
    ensures left { sizes.new
        ≡ (exchanged editions first.now second.now sizes.old sizes2.old).first }
    ensures left2 { sizes2.new
        ≡ (exchanged editions first.now second.now sizes.old sizes2.old).second }
    ensures summed { sums.new
        ≡ sums_after (exchanged editions first.now second.now sizes.old sizes2.old).outcome sums.old }
{
    let outcome = exchanges::exchange(first, second, sizes, sizes2);
    packing::store_sums(outcome, sums);
    packing::pack_regions(outcome)
}

// Writes the span of a range sheet into the caller's buffer, as spans::span does, and tells the outcome as one number.
#[unsafe(no_mangle)]
pub extern "C" fn waderarmoire_ranges(sheet: &[u8], report: &mut [u8]) -> u64
    ensures told { result ≡ packed (spanned sheet.now report.old).outcome }
    ensures left { report.new ≡ (spanned sheet.now report.old).buffer }
{
    packing::pack(spans::span(sheet, report))
}

// Judges a plan drawn by hand over a sheet, as verdicts::judge does, and tells the outcome as one number.
#[unsafe(no_mangle)]
pub extern "C" fn waderarmoire_judge(sheet: &[u8], plan: &[u8]) -> u64
    ensures { result ≡ packed_verdict (judged editions sheet.now plan.now) }
{
    packing::pack_verdict(verdicts::judge(sheet, plan))
}

// Tells where the name of a site stands on a sheet, by the site's number, as sheet::name_range does, as one number.
#[unsafe(no_mangle)]
pub extern "C" fn waderarmoire_name(sheet: &[u8], site: usize) -> u64
    ensures { result ≡ packed_name (name_range editions sheet.now site) }
{
    packing::pack_name(sheet::name_range(sheet, site))
}

// Writes what the refusal of a sheet means, a line of text, from the start of the caller's buffer as far as it goes, and tells its length.
#[unsafe(no_mangle)]
pub extern "C" fn waderarmoire_words(number: u64, line: usize, text: &mut [u8]) -> usize
    ensures { Wrote text.old 0 (words number line) text.new result }
{
    report_words::write_words(number, line, text)
}

// So for a refusal of the sheet, of = 1, or of the log, of = 2, of a replay.
#[unsafe(no_mangle)]
pub extern "C" fn waderarmoire_words_of_replay(
    of: u64,
    number: u64,
    line: usize,
    text: &mut [u8],
) -> usize
    ensures { Wrote text.old 0 (words_of of number line) text.new result }
{
    report_words::write_words_of(of, number, line, text)
}

// So for a refusal of two regions: of the first sheet, of = 1, of the second, of = 2, or of both together, of = 0.
#[unsafe(no_mangle)]
pub extern "C" fn waderarmoire_words_of_regions(
    of: u64,
    number: u64,
    line: usize,
    text: &mut [u8],
) -> usize
    ensures { Wrote text.old 0 (words_of_sheets of number line) text.new result }
{
    report_words::write_words_of_sheets(of, number, line, text)
}

// So for a refusal of the sheet, of = 1, or of the plan, of = 2, of a judgement.
#[unsafe(no_mangle)]
pub extern "C" fn waderarmoire_words_of_judge(
    of: u64,
    number: u64,
    line: usize,
    text: &mut [u8],
) -> usize
    ensures { Wrote text.old 0 (words_judged of number line) text.new result }
{
    plan_words::write_words(of, number, line, text)
}
