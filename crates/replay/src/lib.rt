// A list of calls in lent buffers, run by the book's own calls. The promise of `replay` is demand 3, of the code.
#![tactic(auto)]

ghost use Rattle.std.specs.Prelude.{◌≡◌, true, ◌+◌, ◌*◌, ◌≤◌, ◌<◌, length};
ghost use Rattle.book.specs.Calls.{state_of};
ghost use Rattle.report.specs.Reports.{report_out};
ghost use Rattle.lent.specs.Slices.{before, after};
ghost use Rattle.lent.specs.Written.{over};
ghost use Rattle.reporting.specs.Outputs.{lent_outputs, outputs_now};
ghost use Rattle.replay.specs.Records.{pruning_by, settings_at, places_at, call_of, call_at, calls_of, holds, holds_all, fits_in, all_fit, has_room, well_formed};
ghost use Rattle.replay.specs.Replay.{ReplayIs, memory, buffers_of};
ghost use Rattle.replay.specs.Steps.{results_in, change_record, report_record, Changed, Reported, TurnIs, RunIs, Stands, Windows};
ghost use Rattle.samples.specs.Columns.{columns_of};
ghost use Rattle.samples.specs.Held.{held};
ghost use Rattle.reporting.specs.declared.Places.{Places};
ghost use Rattle.settings.specs.declared.Settings.{Settings};

use basis::SUMS;
use book::Book;
use refusal::Refusal;
use reporting::{Memory, Places, Report, local};
use samples::{Columns, Sample};
use settings::Settings;

// A list of calls: the kinds, the words and the numbers of one after another.
#[derive(Clone, Copy)]
pub struct Calls<'a> {
    pub kinds: &'a [u32],
    pub words: &'a [usize],
    pub numbers: &'a [f64],
}

// How many places the buffers have that are written.
#[derive(Clone, Copy)]
pub struct Buffers {
    pub sums: usize,
    pub results: usize,
    pub outputs: Places,
}

// The book that goes on to the next call, and the results recorded of a call: the refusal's number, 0 for none; the book's count or the degree;
// solved degrees; outliers; pruned terms. Numbers, as C reads them.
#[derive(Clone, Copy)]
pub struct Done {
    pub count: usize,
    pub number: usize,
    pub size: usize,
    pub solved: usize,
    pub outliers: usize,
    pub pruned: usize,
}

// The rule of pruning by the number of a call's kind, both numbers of the C interface: 4 is a report that prunes by size.
fn pruning_by(kind: u32) -> u32
    ensures { result ≡ pruning_by kind }
{
    if kind == 4 {
        return 1;
    }
    0
}

// The settings of the k-th record.
fn settings_at(calls: Calls<'_>, k: usize) -> Settings
    requires { Stands calls.kinds.now calls.words.now calls.numbers.now k }
    ensures { result ≡ settings_at calls.entry.kinds.now calls.entry.words.now calls.entry.numbers.now k }
{
    let kind = 5 * k;
    let word = 9 * k;
    let number = 5 * k;
    let bound = calls.kinds[kind + 1];
    let most = calls.words[word + 1];
    let criterion = calls.kinds[kind + 2];
    let confidence = calls.kinds[kind + 3];
    let score = calls.numbers[number + 3];
    let tolerance = calls.kinds[kind + 4];
    let value = calls.numbers[number + 4];
    let pruning = pruning_by(calls.kinds[kind]);
    settings::numbered(
        bound, most, criterion, confidence, score, tolerance, value, pruning,
    )
}

// The lengths of the k-th record.
fn places_at(words: &[usize], k: usize) -> Places
    requires { 9 * k + 9 ≤ length words.now }
    ensures { result ≡ places_at words.now k }
{
    let word = 9 * k;
    Places {
        scratch: words[word + 2],
        coefficients: words[word + 3],
        errors: words[word + 4],
        pruned: words[word + 5],
        lower: words[word + 6],
        upper: words[word + 7],
        outliers: words[word + 8],
    }
}

// Whether m windows fit into so many places.
fn room(width: usize, m: usize, places: usize) -> bool
    ensures { result ≡ holds width m places }
{
    if width == 0 {
        return true;
    }
    m <= places / width
}

// Whether a record's memory fits into a window.
fn fits_in(width: usize, p: Places) -> bool
    ensures { result ≡ fits_in width p }
{
    (p.scratch <= width)
        & (p.coefficients <= width)
        & (p.errors <= width)
        & (p.pruned <= width)
        & (p.lower <= width)
        & (p.upper <= width)
        & (p.outliers <= width)
}

// Whether that of the first m records does. The kinds tell how many there are, and the words may have room for more.
fn all_fit(words: &[usize], width: usize, m: usize) -> bool
    requires { 9 * m ≤ length words.now }
    ensures { result ≡ all_fit words.now width m }
{
    let mut fit = true;
    for k in 0..m {
        let p = places_at(words, k);
        fit = fit & fits_in(width, p);
    }
    fit
}

// Whether m windows fit into each memory of a report.
fn room_in_all(width: usize, m: usize, p: Places) -> bool
    ensures { result ≡ holds_all width m p }
{
    room(width, m, p.scratch)
        & room(width, m, p.coefficients)
        & room(width, m, p.errors)
        & room(width, m, p.pruned)
        & room(width, m, p.lower)
        & room(width, m, p.upper)
        & room(width, m, p.outliers)
}

// Whether the buffers have room for m calls.
fn has_room(m: usize, words: usize, numbers: usize, width: usize, b: Buffers) -> bool
    ensures { result ≡ has_room m words numbers width b }
{
    let outputs = b.outputs;
    (m <= words / 9)
        & (m <= numbers / 5)
        & (m <= b.results / 5)
        & (SUMS <= b.sums)
        & room_in_all(width, m, outputs)
}

// Whether the buffers hold a list of calls, with room for all that is written.
fn well_formed(calls: Calls<'_>, width: usize, b: Buffers) -> bool
    ensures { result ≡ well_formed calls.entry.kinds.now calls.entry.words.now calls.entry.numbers.now width b }
{
    let count = calls.kinds.len() / 5;
    if !has_room(count, calls.words.len(), calls.numbers.len(), width, b) {
        return false;
    }
    all_fit(calls.words, width, count)
}

// After the answer of a call that changes a book.
fn record_change(old: Book, answer: Result<Book, Refusal>) -> Done
    ensures { result ≡ change_record old.count answer }
{
    let none = Done {
        count: old.count,
        number: 0,
        size: 0,
        solved: 0,
        outliers: 0,
        pruned: 0,
    };
    match answer {
        Ok(book) => Done {
            count: book.count,
            size: book.count,
            ..none
        },
        Err(refusal) => Done {
            number: u8::from(refusal) as usize,
            ..none
        },
    }
}

// After a report's. It shares no more with the above than the refusal's number and a record of nothing.
fn record_report(old: Book, answer: Result<Report, Refusal>) -> Done
    ensures { result ≡ report_record old.count answer }
{
    let none = Done {
        count: old.count,
        number: 0,
        size: 0,
        solved: 0,
        outliers: 0,
        pruned: 0,
    };
    match answer {
        Ok(report) => Done {
            size: report.degree.0,
            solved: report.solved,
            outliers: report.outliers,
            pruned: report.pruned,
            ..none
        },
        Err(refusal) => Done {
            number: u8::from(refusal) as usize,
            ..none
        },
    }
}

// The five results of a call.
fn put(d: Done, out: &mut [usize])
    requires { 5 ≤ length out.old }
    ensures { after out ≡ over (results_in d) (before out) }
{
    out[0] = d.number;
    out[1] = d.size;
    out[2] = d.solved;
    out[3] = d.outliers;
    out[4] = d.pruned;
}

// A call that changes the book: 0 add, 1 correct, which takes the sample's y alone, 2 withdraw. Kinds are numbers, as C
// lends them: an enum would be made of one and taken apart at once. No setting and no place is read.
fn change(
    book: Book,
    kind: u32,
    index: usize,
    sample: Sample,
    xs: &mut [f64],
    ys: &mut [f64],
    ws: &mut [f64],
    sums: &mut [f64],
) -> Done
    requires { kind < 3 }
    ensures { (settings : Settings) (places : Places) → Changed (state_of book.count (columns_of (before xs) (before ys) (before ws)) (before sums)) (call_of kind index sample.x sample.y sample.w settings places) result (columns_of (after xs) (after ys) (after ws)) (after sums) }
{
    if kind == 0 {
        let a = book::add(book, sample, xs, ys, ws, sums);
        return record_change(book, a);
    }
    if kind == 1 {
        let a = book::correct(book, index, sample.y, xs, ys, ws, sums);
        return record_change(book, a);
    }
    let a = book::withdraw(book, index, xs, ys, ws, sums);
    record_change(book, a)
}

// A report into windows that are cut from place `at` on.
fn report_at(
    book: Book,
    settings: Settings,
    p: Places,
    at: usize,
    columns: Columns<'_>,
    sums: &[f64],
    outputs: Memory<'_>,
) -> Done
    requires { Windows at p (outputs_now outputs) }
    ensures { Reported book.count at (report_out book.count settings (held columns.entry) sums.now p) result (lent_outputs outputs) }
{
    let Memory {
        scratch,
        coefficients,
        errors,
        pruned,
        lower,
        upper,
        outliers,
    } = outputs;
    let s = at + p.scratch;
    let c = at + p.coefficients;
    let e = at + p.errors;
    let b = at + p.pruned;
    let l = at + p.lower;
    let u = at + p.upper;
    let o = at + p.outliers;
    let a = report::report_into(
        book,
        settings,
        columns,
        sums,
        &mut scratch[at..s],
        &mut coefficients[at..c],
        &mut errors[at..e],
        &mut pruned[at..b],
        &mut lower[at..l],
        &mut upper[at..u],
        &mut outliers[at..o],
    );
    record_report(book, a)
}

// The k-th call. The book goes on. Columns, sums and results stay parameters: three functions pass them, and a struct of them, taken apart and built again in each,
// would be longer.
fn turn(
    book: Book,
    calls: Calls<'_>,
    width: usize,
    k: usize,
    xs: &mut [f64],
    ys: &mut [f64],
    ws: &mut [f64],
    sums: &mut [f64],
    results: &mut [usize],
    outputs: Memory<'_>,
) -> Book
    requires { Stands calls.kinds.now calls.words.now calls.numbers.now k × (5 * k + 5 ≤ length results.old) × Windows (width * k) (places_at calls.words.now k) (outputs_now outputs) }
    ensures { TurnIs (call_at calls.entry.kinds.now calls.entry.words.now calls.entry.numbers.now k) width k book.count result.count (memory xs ys ws sums results (lent_outputs outputs)) }
{
    local!(outputs);
    let settings = settings_at(calls, k);
    let places = places_at(calls.words, k);
    let kind = calls.kinds[5 * k];
    let from = 5 * k;
    let end = from + 5;
    if kind < 3 {
        let index = calls.words[9 * k];
        let number = 5 * k;
        let sample = Sample {
            x: calls.numbers[number],
            y: calls.numbers[number + 1],
            w: calls.numbers[number + 2],
        };
        let d = change(book, kind, index, sample, xs, ys, ws, sums);
        put(d, &mut results[from..end]);
        return Book { count: d.count };
    }
    let columns = Columns { xs, ys, ws };
    let d = report_at(book, settings, places, width * k, columns, sums, outputs);
    put(d, &mut results[from..end]);
    Book { count: d.count }
}

// The calls of the buffers, one after another, from a book just opened.
fn run(
    calls: Calls<'_>,
    width: usize,
    xs: &mut [f64],
    ys: &mut [f64],
    ws: &mut [f64],
    sums: &mut [f64],
    results: &mut [usize],
    outputs: Memory<'_>,
) -> Book
    requires { well_formed calls.kinds.now calls.words.now calls.numbers.now width (buffers_of sums.old results.old (outputs_now outputs)) ≡ true }
    ensures { RunIs (calls_of calls.entry.kinds.now calls.entry.words.now calls.entry.numbers.now) width result.count (memory xs ys ws sums results (lent_outputs outputs)) }
{
    let Memory {
        scratch,
        coefficients,
        errors,
        pruned,
        lower,
        upper,
        outliers,
    } = outputs;
    let answer = book::open(sums);
    let first = record_change(Book { count: 0 }, answer);
    let mut book = Book { count: first.count };
    let m = calls.kinds.len() / 5;
    for k in 0..m {
        book = turn(
            book,
            calls,
            width,
            k,
            xs,
            ys,
            ws,
            sums,
            results,
            Memory {
                scratch: &mut *scratch,
                coefficients: &mut *coefficients,
                errors: &mut *errors,
                pruned: &mut *pruned,
                lower: &mut *lower,
                upper: &mut *upper,
                outliers: &mut *outliers,
            },
        );
    }
    book
}

// The calls are run where the buffers hold a list of calls, and the book after the last call is answered; else nothing is written.
pub fn replay(
    calls: Calls<'_>,
    width: usize,
    xs: &mut [f64],
    ys: &mut [f64],
    ws: &mut [f64],
    sums: &mut [f64],
    results: &mut [usize],
    outputs: Memory<'_>,
) -> Option<Book>
    ensures { ReplayIs calls.entry.kinds.now calls.entry.words.now calls.entry.numbers.now width (memory xs ys ws sums results (lent_outputs outputs)) result }
{
    local!(outputs);
    let b = Buffers {
        sums: sums.len(),
        results: results.len(),
        outputs: outputs.places(),
    };
    if !well_formed(calls, width, b) {
        return None;
    }
    let book = run(calls, width, xs, ys, ws, sums, results, outputs);
    Some(book)
}
