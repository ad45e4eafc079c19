// The C interface: the book's calls over numbers and slices. Each is promised, for every input, to answer the book's own answer, packed into one
// u64, and to leave every lent place as the book's own call leaves it. A slice is a pointer and a length in C.
#![tactic(auto)]

mod packed;
mod stake_changes;
mod stake_reads;
mod stake_reports;

ghost use Rattle.std.specs.Prelude.{◌≡◌, [], ◌≤◌, ◌<◌, length};
ghost use Rattle.book.specs.Calls.{open_out, add_out, correct_out, withdraw_out, add_frame_out, add_lines_out};
ghost use Rattle.book.specs.Window.{window_out};
ghost use Rattle.samples.specs.Columns.{columns_of, no_columns};
ghost use Rattle.lent.specs.Slices.{before, after};
ghost use Rattle.lent.specs.Written.{over};
ghost use Rattle.frame.specs.Handed.{opened_of, next_of};
ghost use Rattle.query.specs.Fits.{fit_out, validate_out};
ghost use Rattle.query.specs.Bands.{band_out};
ghost use Rattle.reporting.specs.Outputs.{outputs};
ghost use Rattle.surface.specs.Points.{point_columns};
ghost use Rattle.surface.specs.Surfaces.{surface_fit_out, surface_band_out};
ghost use Rattle.losses.specs.Losses.{loss_out};
ghost use Rattle.scores.specs.Scores.{scores_out};
ghost use Rattle.carried.specs.Carry.{carry_out};
ghost use Rattle.split.specs.Splits.{lent_split};
ghost use Rattle.allowance.specs.Table.{start_out, renew_out};
ghost use Rattle.two_column.specs.Pairs.{columns as pair_columns};
ghost use Rattle.two_column.specs.Calls.{open_out as pair_open_out, add_out as pair_add_out, correct_out as pair_correct_out, withdraw_out as pair_withdraw_out, add_frame_out as pair_frame_out};
ghost use Rattle.replay.specs.Replay.{memory};
ghost use Rattle.settings.specs.Numbers.{bound_of, criterion_of, confidence_of, tolerance_of, settings_of, settings_in};
ghost use Rattle.capi.specs.Packed.{packed_fields, packed_report, ReportFits, packed_band, band_numbers, BookPacked, PairPacked, FitPacked, BandPacked, band_into, ReportPackedIs, SurfacePackedIs, packed_split, split_total, SplitFits, SplitPackedIs, TablePacked, GroupReportPackedIs, GroupSurfacePackedIs, GroupSplitPackedIs, packed_losses, loss_numbers, LossPacked, loss_into, packed_scores, least_number, ScoresFits, ScoresPacked, scores_into, packed_opened, packed_read, read_numbers, ReadPacked, ReplayPacked};

use basis::Degree;
use book::Book;
use covariance::Band;
use frame::Cursor;
use losses::LossTotals;
use refusal::Refusal;
use replay::Calls;
use reporting::{Memory, Report};
use samples::{Columns, Sample};
use scores::ScoreTable;
use split::Break;
use surface::Points;
use two_column::Pair;

// The places that a band is written to, the total and the score of losses, and a reader's sample.
const BAND: usize = 3;

const TOLD: usize = 2;

const SAMPLE: usize = 3;

// Four numbers, each in its field: bits 0 to 7, 8 to 15, 16 to 31 and 32 to 55.
fn fields(a: usize, b: usize, c: usize, d: usize) -> u64
    requires { (a < 0x100) × (b < 0x100) × (c < 0x1_0000) × (d < 0x100_0000) }
    ensures { result ≡ packed_fields a b c d }
{
    let all = a + b * 0x100 + c * 0x1_0000 + d * 0x1_0000_0000;
    all as u64
}

// A report: the degree, the solved degrees, the pruned terms and the outliers.
fn packed_report(answer: Result<Report, Refusal>) -> u64
    requires { ReportFits answer }
    ensures { result ≡ packed_report answer }
{
    match answer {
        Ok(r) => fields(r.degree.0, r.solved, r.pruned, r.outliers),
        Err(refusal) => packed::refused(refusal),
    }
}

// A band: 0, and its value, lower and upper are written.
fn packed_band(answer: Result<Band, Refusal>, numbers: &mut [f64]) -> u64
    requires { 3 ≤ length numbers.old }
    ensures { (result ≡ packed_band answer) × (after numbers ≡ over (band_numbers answer) (before numbers)) }
{
    match answer {
        Ok(b) => {
            numbers[0] = b.value;
            numbers[1] = b.lower;
            numbers[2] = b.upper;
            0
        }
        Err(refusal) => packed::refused(refusal),
    }
}

// A split: both degrees, the samples before the break and the pivot tests; its total is written.
fn packed_split(answer: Result<Break, Refusal>, total: &mut [f64]) -> u64
    requires split_fits { SplitFits answer }
    requires in_bounds { 1 ≤ length total.old }
    ensures { (result ≡ packed_split answer) × (after total ≡ over (split_total answer) (before total)) }
{
    match answer {
        Ok(b) => {
            total[0] = b.total;
            fields(b.before.0, b.after.0, b.at, b.tests)
        }
        Err(refusal) => packed::refused(refusal),
    }
}

// The losses: the degree, and their total and score are written.
fn packed_losses(answer: Result<LossTotals, Refusal>, numbers: &mut [f64]) -> u64
    requires { 2 ≤ length numbers.old }
    ensures { (result ≡ packed_losses answer) × (after numbers ≡ over (loss_numbers answer) (before numbers)) }
{
    match answer {
        Ok(l) => {
            numbers[0] = l.total;
            numbers[1] = l.score;
            l.degree.0 as u64
        }
        Err(refusal) => packed::refused(refusal),
    }
}

// The scores: the chosen degree, the solved degrees, the bound and the pivot tests; the least is written.
fn packed_scores(answer: Result<ScoreTable, Refusal>, least: &mut [f64]) -> u64
    requires scores_fits { ScoresFits answer }
    requires in_bounds { 1 ≤ length least.old }
    ensures { (result ≡ packed_scores answer) × (after least ≡ over (least_number answer) (before least)) }
{
    match answer {
        Ok(s) => {
            least[0] = s.least;
            fields(s.degree.0, s.solved, s.bound.0, s.tests)
        }
        Err(refusal) => packed::refused(refusal),
    }
}

// What a reader finds: the offset behind the sample, whose x, y and weight are written; 0, which is behind no sample, at the end.
fn packed_read(answer: Option<(Sample, Cursor)>, numbers: &mut [f64]) -> u64
    requires { 3 ≤ length numbers.old }
    ensures { (result ≡ packed_read answer) × (after numbers ≡ over (read_numbers answer) (before numbers)) }
{
    match answer {
        Some((sample, behind)) => {
            numbers[0] = sample.x;
            numbers[1] = sample.y;
            numbers[2] = sample.w;
            behind.at as u64
        }
        None => 0,
    }
}

// An empty book: the sums become those of no sample.
#[unsafe(no_mangle)]
pub extern "C" fn stakebook_open(sums: &mut [f64]) -> u64
    ensures { BookPacked (open_out (before sums)) result no_columns (after sums) }
{
    packed::book(book::open(sums))
}

// One sample at the end.
#[unsafe(no_mangle)]
pub extern "C" fn stakebook_add(
    count: usize,
    x: f64,
    y: f64,
    weight: f64,
    xs: &mut [f64],
    ys: &mut [f64],
    ws: &mut [f64],
    sums: &mut [f64],
) -> u64
    ensures { BookPacked (add_out count (record { x = x; y = y; w = weight }) (columns_of (before xs) (before ys) (before ws)) (before sums)) result (columns_of (after xs) (after ys) (after ws)) (after sums) }
{
    let sample = Sample { x, y, w: weight };
    packed::book(book::add(Book { count }, sample, xs, ys, ws, sums))
}

// One sample at the end; a full book first loses sample 0.
#[unsafe(no_mangle)]
pub extern "C" fn stakebook_add_window(
    count: usize,
    x: f64,
    y: f64,
    weight: f64,
    xs: &mut [f64],
    ys: &mut [f64],
    ws: &mut [f64],
    sums: &mut [f64],
) -> u64
    ensures { BookPacked (window_out count (record { x = x; y = y; w = weight }) (columns_of (before xs) (before ys) (before ws)) (before sums)) result (columns_of (after xs) (after ys) (after ws)) (after sums) }
{
    let sample = Sample { x, y, w: weight };
    packed::book(book::add_window(Book { count }, sample, xs, ys, ws, sums))
}

// Sample i gets a new y.
#[unsafe(no_mangle)]
pub extern "C" fn stakebook_correct(
    count: usize,
    i: usize,
    y: f64,
    xs: &[f64],
    ys: &mut [f64],
    ws: &[f64],
    sums: &mut [f64],
) -> u64
    ensures { BookPacked (correct_out count i y (columns_of xs.now (before ys) ws.now) (before sums)) result (columns_of xs.now (after ys) ws.now) (after sums) }
{
    packed::book(book::correct(Book { count }, i, y, xs, ys, ws, sums))
}

// Sample i goes, and later ones move down one.
#[unsafe(no_mangle)]
pub extern "C" fn stakebook_withdraw(
    count: usize,
    i: usize,
    xs: &mut [f64],
    ys: &mut [f64],
    ws: &mut [f64],
    sums: &mut [f64],
) -> u64
    ensures { BookPacked (withdraw_out count i (columns_of (before xs) (before ys) (before ws)) (before sums)) result (columns_of (after xs) (after ys) (after ws)) (after sums) }
{
    packed::book(book::withdraw(Book { count }, i, xs, ys, ws, sums))
}

// All samples of a frame at the end, or none.
#[unsafe(no_mangle)]
pub extern "C" fn stakebook_add_frame(
    count: usize,
    frame: &[u8],
    xs: &mut [f64],
    ys: &mut [f64],
    ws: &mut [f64],
    sums: &mut [f64],
) -> u64
    ensures { BookPacked (add_frame_out count frame.now (columns_of (before xs) (before ys) (before ws)) (before sums)) result (columns_of (after xs) (after ys) (after ws)) (after sums) }
{
    packed::book(book::add_frame(Book { count }, frame, xs, ys, ws, sums))
}

// All samples of a text of lines at the end, or none.
#[unsafe(no_mangle)]
pub extern "C" fn stakebook_add_lines(
    count: usize,
    text: &[u8],
    xs: &mut [f64],
    ys: &mut [f64],
    ws: &mut [f64],
    sums: &mut [f64],
) -> u64
    ensures { BookPacked (add_lines_out count text.now (columns_of (before xs) (before ys) (before ws)) (before sums)) result (columns_of (after xs) (after ys) (after ws)) (after sums) }
{
    packed::book(book::add_lines(Book { count }, text, xs, ys, ws, sums))
}

// The calls that change a two-column book, whose samples have no weight. An empty one.
#[unsafe(no_mangle)]
pub extern "C" fn stakebook_two_column_open(sums: &mut [f64]) -> u64
    ensures { PairPacked (pair_open_out (before sums)) result (pair_columns [] []) (after sums) }
{
    packed::book(two_column::open(sums))
}

// One sample at the end.
#[unsafe(no_mangle)]
pub extern "C" fn stakebook_two_column_add(
    count: usize,
    x: f64,
    y: f64,
    xs: &mut [f64],
    ys: &mut [f64],
    sums: &mut [f64],
) -> u64
    ensures { PairPacked (pair_add_out count (record { x = x; y = y }) (pair_columns (before xs) (before ys)) (before sums)) result (pair_columns (after xs) (after ys)) (after sums) }
{
    packed::book(two_column::add(Book { count }, Pair { x, y }, xs, ys, sums))
}

// Sample i gets a new y.
#[unsafe(no_mangle)]
pub extern "C" fn stakebook_two_column_correct(
    count: usize,
    i: usize,
    y: f64,
    xs: &[f64],
    ys: &mut [f64],
    sums: &mut [f64],
) -> u64
    ensures { PairPacked (pair_correct_out count i y (pair_columns xs.now (before ys)) (before sums)) result (pair_columns xs.now (after ys)) (after sums) }
{
    packed::book(two_column::correct(Book { count }, i, y, xs, ys, sums))
}

// Sample i goes, and later ones move down one.
#[unsafe(no_mangle)]
pub extern "C" fn stakebook_two_column_withdraw(
    count: usize,
    i: usize,
    xs: &mut [f64],
    ys: &mut [f64],
    sums: &mut [f64],
) -> u64
    ensures { PairPacked (pair_withdraw_out count i (pair_columns (before xs) (before ys)) (before sums)) result (pair_columns (after xs) (after ys)) (after sums) }
{
    packed::book(two_column::withdraw(Book { count }, i, xs, ys, sums))
}

// All samples of a frame of version 1 at the end, or none.
#[unsafe(no_mangle)]
pub extern "C" fn stakebook_two_column_add_frame(
    count: usize,
    frame: &[u8],
    xs: &mut [f64],
    ys: &mut [f64],
    sums: &mut [f64],
) -> u64
    ensures { PairPacked (pair_frame_out count frame.now (pair_columns (before xs) (before ys)) (before sums)) result (pair_columns (after xs) (after ys)) (after sums) }
{
    packed::book(two_column::add_frame(Book { count }, frame, xs, ys, sums))
}

// A two-column book becomes one with weights: the weights below the count become 1.
#[unsafe(no_mangle)]
pub extern "C" fn stakebook_carry(
    count: usize,
    xs: &[f64],
    ys: &[f64],
    ws: &mut [f64],
    sums: &[f64],
) -> u64
    ensures { BookPacked (carry_out count (columns_of xs.now ys.now (before ws)) sums.now) result (columns_of xs.now ys.now (after ws)) sums.now }
{
    packed::book(carried::carry(Book { count }, xs, ys, ws, sums))
}

// The fit of the asked degree.
#[unsafe(no_mangle)]
pub extern "C" fn stakebook_fit(
    count: usize,
    degree: usize,
    xs: &[f64],
    ys: &[f64],
    ws: &[f64],
    sums: &[f64],
    scratch: &mut [f64],
    coefficients: &mut [f64],
) -> u64
    ensures { FitPacked (fit_out count (columns_of xs.now ys.now ws.now) sums.now (before scratch) (before coefficients) degree) result scratch coefficients }
{
    packed::fit(query::fit(
        Book { count },
        Degree(degree),
        Columns { xs, ys, ws },
        sums,
        scratch,
        coefficients,
    ))
}

// The fit of the degree that k-fold cross-validation chooses. A bound is a number and a degree.
#[unsafe(no_mangle)]
pub extern "C" fn stakebook_validate(
    count: usize,
    folds: usize,
    bound: u32,
    most: usize,
    criterion: u32,
    xs: &[f64],
    ys: &[f64],
    ws: &[f64],
    sums: &[f64],
    scratch: &mut [f64],
    coefficients: &mut [f64],
) -> u64
    ensures { FitPacked (validate_out count (columns_of xs.now ys.now ws.now) sums.now (before scratch) (before coefficients) folds (bound_of bound most) (criterion_of criterion)) result scratch coefficients }
{
    let by = settings::bound(bound, most);
    let scored = settings::criterion(criterion);
    packed::fit(query::validate(
        Book { count },
        folds,
        by,
        scored,
        Columns { xs, ys, ws },
        sums,
        scratch,
        coefficients,
    ))
}

// The band at x of the curve of the asked degree, written to three places: value, lower and upper.
#[unsafe(no_mangle)]
pub extern "C" fn stakebook_band(
    count: usize,
    x: f64,
    degree: usize,
    confidence: u32,
    score: f64,
    tolerance: u32,
    value: f64,
    xs: &[f64],
    ys: &[f64],
    ws: &[f64],
    sums: &[f64],
    scratch: &mut [f64],
    numbers: &mut [f64],
) -> u64
    ensures { BandPacked (band_into (length (before numbers)) (band_out count x degree (confidence_of confidence score) (tolerance_of tolerance value) (columns_of xs.now ys.now ws.now) sums.now (before scratch))) result scratch numbers }
{
    if numbers.len() < BAND {
        return packed::refused(Refusal::Short);
    }
    let with = settings::confidence(confidence, score);
    let allowed = settings::tolerance(tolerance, value);
    let answer = query::band(
        Book { count },
        x,
        Degree(degree),
        with,
        allowed,
        Columns { xs, ys, ws },
        sums,
        scratch,
    );
    packed_band(answer, numbers)
}

// A report of the book, with polyfit's rule of pruning.
#[unsafe(no_mangle)]
pub extern "C" fn stakebook_report(
    count: usize,
    bound: u32,
    most: usize,
    criterion: u32,
    confidence: u32,
    score: f64,
    tolerance: u32,
    value: f64,
    xs: &[f64],
    ys: &[f64],
    ws: &[f64],
    sums: &[f64],
    scratch: &mut [f64],
    coefficients: &mut [f64],
    errors: &mut [f64],
    pruned: &mut [u8],
    lower: &mut [f64],
    upper: &mut [f64],
    outliers: &mut [u8],
) -> u64
    ensures { ReportPackedIs count (settings_of bound most criterion confidence score tolerance value 0) (columns_of xs.now ys.now ws.now) sums.now result (outputs scratch coefficients errors pruned lower upper outliers) }
{
    let settings = settings::numbered(
        bound, most, criterion, confidence, score, tolerance, value, 0,
    );
    packed_report(report::report(
        Book { count },
        settings,
        Columns { xs, ys, ws },
        sums,
        Memory {
            scratch,
            coefficients,
            errors,
            pruned,
            lower,
            upper,
            outliers,
        },
    ))
}

// A report of the book by lists of settings, which grow with them: what is not lent counts as 0, and what is past the last setting is not read.
#[unsafe(no_mangle)]
pub extern "C" fn stakebook_report_by(
    count: usize,
    words: &[u32],
    values: &[f64],
    xs: &[f64],
    ys: &[f64],
    ws: &[f64],
    sums: &[f64],
    scratch: &mut [f64],
    coefficients: &mut [f64],
    errors: &mut [f64],
    pruned: &mut [u8],
    lower: &mut [f64],
    upper: &mut [f64],
    outliers: &mut [u8],
) -> u64
    ensures { ReportPackedIs count (settings_in words.now values.now) (columns_of xs.now ys.now ws.now) sums.now result (outputs scratch coefficients errors pruned lower upper outliers) }
{
    let settings = settings::listed(words, values);
    packed_report(report::report(
        Book { count },
        settings,
        Columns { xs, ys, ws },
        sums,
        Memory {
            scratch,
            coefficients,
            errors,
            pruned,
            lower,
            upper,
            outliers,
        },
    ))
}

// The surface of the asked total degree. No sums are lent: they are folded inside the call.
#[unsafe(no_mangle)]
pub extern "C" fn stakebook_surface_fit(
    count: usize,
    degree: usize,
    xs: &[f64],
    zs: &[f64],
    ys: &[f64],
    scratch: &mut [f64],
    coefficients: &mut [f64],
) -> u64
    ensures { FitPacked (surface_fit_out count degree (point_columns xs.now zs.now ys.now) (before scratch) (before coefficients)) result scratch coefficients }
{
    packed::fit(surface::surface_fit(
        count,
        Degree(degree),
        Points { xs, zs, ys },
        scratch,
        coefficients,
    ))
}

// The band at x and z of the surface of the asked total degree, written to three places: value, lower and upper.
#[unsafe(no_mangle)]
pub extern "C" fn stakebook_surface_band(
    count: usize,
    x: f64,
    z: f64,
    degree: usize,
    confidence: u32,
    score: f64,
    tolerance: u32,
    value: f64,
    xs: &[f64],
    zs: &[f64],
    ys: &[f64],
    scratch: &mut [f64],
    numbers: &mut [f64],
) -> u64
    ensures { BandPacked (band_into (length (before numbers)) (surface_band_out count x z degree (confidence_of confidence score) (tolerance_of tolerance value) (point_columns xs.now zs.now ys.now) (before scratch))) result scratch numbers }
{
    let places = numbers.len();
    if places < BAND {
        return packed::refused(Refusal::Short);
    }
    let with = settings::confidence(confidence, score);
    let allowed = settings::tolerance(tolerance, value);
    let answer = surface::surface_band(
        count,
        x,
        z,
        Degree(degree),
        with,
        allowed,
        Points { xs, zs, ys },
        scratch,
    );
    packed_band(answer, numbers)
}

// The report of a surface, by lists of settings.
#[unsafe(no_mangle)]
pub extern "C" fn stakebook_surface_report(
    count: usize,
    words: &[u32],
    values: &[f64],
    xs: &[f64],
    zs: &[f64],
    ys: &[f64],
    scratch: &mut [f64],
    coefficients: &mut [f64],
    errors: &mut [f64],
    pruned: &mut [u8],
    lower: &mut [f64],
    upper: &mut [f64],
    outliers: &mut [u8],
) -> u64
    ensures { SurfacePackedIs count (settings_in words.now values.now) (point_columns xs.now zs.now ys.now) result (outputs scratch coefficients errors pruned lower upper outliers) }
{
    let settings = settings::listed(words, values);
    packed_report(surface::surface_report(
        count,
        settings,
        Points { xs, zs, ys },
        Memory {
            scratch,
            coefficients,
            errors,
            pruned,
            lower,
            upper,
            outliers,
        },
    ))
}

// A split of the book by lists of settings. Its total is written to one place.
#[unsafe(no_mangle)]
pub extern "C" fn stakebook_split(
    count: usize,
    words: &[u32],
    values: &[f64],
    limit: usize,
    xs: &[f64],
    ys: &[f64],
    ws: &[f64],
    sums: &[f64],
    scratch: &mut [f64],
    earlier: &mut [f64],
    later: &mut [f64],
    total: &mut [f64],
) -> u64
    ensures { SplitPackedIs count (settings_in words.now values.now) limit (columns_of xs.now ys.now ws.now) sums.now result (lent_split scratch earlier later) total }
{
    if total.len() < 1 {
        return packed::refused(Refusal::Short);
    }
    let settings = settings::listed(words, values);
    let answer = split::split(
        Book { count },
        settings,
        limit,
        Columns { xs, ys, ws },
        sums,
        split::Memory {
            scratch,
            before: earlier,
            after: later,
        },
    );
    packed_split(answer, total)
}

// The losses of the degree that a report by these settings chooses, one for each sample; their total and the score made of it are written to two places.
#[unsafe(no_mangle)]
pub extern "C" fn stakebook_losses(
    count: usize,
    words: &[u32],
    values: &[f64],
    xs: &[f64],
    ys: &[f64],
    ws: &[f64],
    sums: &[f64],
    scratch: &mut [f64],
    losses: &mut [f64],
    numbers: &mut [f64],
) -> u64
    ensures { LossPacked (loss_into (length (before numbers)) (loss_out count (settings_in words.now values.now) (columns_of xs.now ys.now ws.now) sums.now (before scratch) (before losses))) result scratch losses numbers }
{
    if numbers.len() < TOLD {
        return packed::refused(Refusal::Short);
    }
    let settings = settings::listed(words, values);
    packed_losses(
        losses::losses(
            Book { count },
            settings,
            Columns { xs, ys, ws },
            sums,
            scratch,
            losses,
        ),
        numbers,
    )
}

// Of each degree within the bound whether it is solved and its score, 16 places each, and what a report by these settings chooses from them. The least score
// is written to one place.
#[unsafe(no_mangle)]
pub extern "C" fn stakebook_scores(
    count: usize,
    words: &[u32],
    values: &[f64],
    xs: &[f64],
    ys: &[f64],
    ws: &[f64],
    sums: &[f64],
    scratch: &mut [f64],
    solved: &mut [u8],
    scores: &mut [f64],
    least: &mut [f64],
) -> u64
    ensures { ScoresPacked (scores_into (length (before least)) (scores_out count (settings_in words.now values.now) (columns_of xs.now ys.now ws.now) sums.now (before scratch) (before solved) (before scores))) result scratch solved scores least }
{
    if least.len() < 1 {
        return packed::refused(Refusal::Short);
    }
    let settings = settings::listed(words, values);
    let answer = scores::scores(
        Book { count },
        settings,
        Columns { xs, ys, ws },
        sums,
        scratch,
        solved,
        scores,
    );
    packed_scores(answer, least)
}

// A table of eight counters, one for each course group, and the quota that they are refilled to.
#[unsafe(no_mangle)]
pub extern "C" fn stakebook_start(quota: usize, table: &mut [usize]) -> u64
    ensures { TablePacked (start_out quota (before table)) result table }
{
    packed::table(allowance::start(quota, table))
}

// All eight counters become the quota.
#[unsafe(no_mangle)]
pub extern "C" fn stakebook_renew(table: &mut [usize]) -> u64
    ensures { TablePacked (renew_out (before table)) result table }
{
    packed::table(allowance::renew(table))
}

// A report of a group's book, by lists of settings, whose pivot tests are taken from the group's counter.
#[unsafe(no_mangle)]
pub extern "C" fn stakebook_group_report(
    group: usize,
    count: usize,
    words: &[u32],
    values: &[f64],
    xs: &[f64],
    ys: &[f64],
    ws: &[f64],
    sums: &[f64],
    scratch: &mut [f64],
    coefficients: &mut [f64],
    errors: &mut [f64],
    pruned: &mut [u8],
    lower: &mut [f64],
    upper: &mut [f64],
    outliers: &mut [u8],
    table: &mut [usize],
) -> u64
    ensures { GroupReportPackedIs group count (settings_in words.now values.now) (columns_of xs.now ys.now ws.now) sums.now result (outputs scratch coefficients errors pruned lower upper outliers) table }
{
    let settings = settings::listed(words, values);
    packed_report(allowance::group_report(
        group,
        Book { count },
        settings,
        Columns { xs, ys, ws },
        sums,
        Memory {
            scratch,
            coefficients,
            errors,
            pruned,
            lower,
            upper,
            outliers,
        },
        table,
    ))
}

// The same of a group's surface.
#[unsafe(no_mangle)]
pub extern "C" fn stakebook_group_surface_report(
    group: usize,
    count: usize,
    words: &[u32],
    values: &[f64],
    xs: &[f64],
    zs: &[f64],
    ys: &[f64],
    scratch: &mut [f64],
    coefficients: &mut [f64],
    errors: &mut [f64],
    pruned: &mut [u8],
    lower: &mut [f64],
    upper: &mut [f64],
    outliers: &mut [u8],
    table: &mut [usize],
) -> u64
    ensures { GroupSurfacePackedIs group count (settings_in words.now values.now) (point_columns xs.now zs.now ys.now) result (outputs scratch coefficients errors pruned lower upper outliers) table }
{
    let settings = settings::listed(words, values);
    packed_report(allowance::group_surface_report(
        group,
        count,
        settings,
        Points { xs, zs, ys },
        Memory {
            scratch,
            coefficients,
            errors,
            pruned,
            lower,
            upper,
            outliers,
        },
        table,
    ))
}

// A split of a group's book, within the group's counter.
#[unsafe(no_mangle)]
pub extern "C" fn stakebook_group_split(
    group: usize,
    count: usize,
    words: &[u32],
    values: &[f64],
    xs: &[f64],
    ys: &[f64],
    ws: &[f64],
    sums: &[f64],
    scratch: &mut [f64],
    earlier: &mut [f64],
    later: &mut [f64],
    total: &mut [f64],
    table: &mut [usize],
) -> u64
    ensures { GroupSplitPackedIs group count (settings_in words.now values.now) (columns_of xs.now ys.now ws.now) sums.now result (lent_split scratch earlier later) total table }
{
    if total.len() < 1 {
        return packed::refused(Refusal::Short);
    }
    let settings = settings::listed(words, values);
    let answer = allowance::group_split(
        group,
        Book { count },
        settings,
        Columns { xs, ys, ws },
        sums,
        split::Memory {
            scratch,
            before: earlier,
            after: later,
        },
        table,
    );
    packed_split(answer, total)
}

// A reader of a frame: the offset of its first sample.
#[unsafe(no_mangle)]
pub extern "C" fn stakebook_reader(frame: &[u8]) -> u64
    ensures { result ≡ packed_opened (opened_of frame.now) }
{
    packed::opened(frame::reader(frame))
}

// The sample at an offset of a frame, written to three places: x, y and the weight, which is 1 at version 1. The frame is not judged again: that was
// done when its reader was made.
#[unsafe(no_mangle)]
pub extern "C" fn stakebook_next(frame: &[u8], at: usize, numbers: &mut [f64]) -> u64
    ensures { ReadPacked (next_of frame.now at) result numbers }
{
    if numbers.len() < SAMPLE {
        return packed::refused(Refusal::Short);
    }
    packed_read(frame::next(frame, Cursor { at }), numbers)
}

// A list of adds, corrections, withdrawals and reports, from a book just opened. Buffers that hold no list of calls are told by 255.
#[unsafe(no_mangle)]
pub extern "C" fn stakebook_replay(
    kinds: &[u32],
    words: &[usize],
    numbers: &[f64],
    width: usize,
    xs: &mut [f64],
    ys: &mut [f64],
    ws: &mut [f64],
    sums: &mut [f64],
    results: &mut [usize],
    scratch: &mut [f64],
    coefficients: &mut [f64],
    errors: &mut [f64],
    pruned: &mut [u8],
    lower: &mut [f64],
    upper: &mut [f64],
    outliers: &mut [u8],
) -> u64
    ensures { ReplayPacked kinds.now words.now numbers.now width (memory xs ys ws sums results (outputs scratch coefficients errors pruned lower upper outliers)) result }
{
    packed::replay(replay::replay(
        Calls {
            kinds,
            words,
            numbers,
        },
        width,
        xs,
        ys,
        ws,
        sums,
        results,
        Memory {
            scratch,
            coefficients,
            errors,
            pruned,
            lower,
            upper,
            outliers,
        },
    ))
}
