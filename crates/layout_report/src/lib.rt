// A report as the 512 bytes that cross the border.
#![tactic(auto)]

ghost use Rattle.std.specs.Prelude.{◌≡◌};
ghost use Rattle.analysis_masks.specs.Found.{report_of};
ghost use Rattle.layout_report.specs.Layout.{summary_bytes, report_bytes};
ghost use Rattle.layout_report.specs.LayoutReportInner.{report_with};

use analysis_masks::Findings;
use refusal::Refusal;

// A report of any values: number and place say whether it is done. Its marks are lent, so that they are copied once.
#[derive(Clone, Copy)]
pub struct Report<'a> {
    pub number: u8,
    pub place: u8,
    pub cleared: bool,
    pub faulty: u32,
    pub marks: &'a [u8; 496],
    pub failing: u16,
    pub first: u8,
    pub second: u8,
    pub culprit: u8,
    pub other: u8,
}

// The marks of a refused report.
const NO_MARKS: [u8; 496] = [0; 496];

// All but the marks.
fn head(r: &Report) -> [u8; 16]
    ensures { result ≡ summary_bytes (report_with r.now) }
{
    let [f0, f1, f2, f3] = u32::to_le_bytes(r.faulty);
    let [c0, c1] = u16::to_le_bytes(r.failing);
    let cleared = u8::from(r.cleared);
    [
        r.number, r.place, cleared, 0, f0, f1, f2, f3, c0, c1, r.first, r.second, r.culprit,
        r.other, 0, 0,
    ]
}

// Into lent bytes: From would copy them, and is no plainer.
pub fn store_report(r: &Report, out: &mut [u8; 512])
    ensures { out.new ≡ report_bytes (report_with r.now) }
{
    little::put_bytes(out, 0, &head(r));
    let marks = r.marks;
    little::put_bytes(out, 16, marks);
}

// What a call gives: its findings, or a refused report.
pub fn store_found(r: &Result<Findings, Refusal>, out: &mut [u8; 512])
    ensures { out.new ≡ report_bytes (report_of r.now) }
{
    let report = match r {
        Ok(found) => {
            let v = found.summary;
            let (first, second, culprit, other) = match v.first {
                Some(pair) => (pair.first, pair.second, pair.culprit, pair.other),
                None => (0, 0, 0, 0),
            };
            Report {
                number: 0,
                place: 255,
                cleared: v.cleared,
                faulty: v.faulty,
                marks: &found.marks,
                failing: v.failing,
                first,
                second,
                culprit,
                other,
            }
        }
        Err(e) => Report {
            number: e.number(),
            place: e.place(),
            cleared: false,
            faulty: 0,
            marks: &NO_MARKS,
            failing: 0,
            first: 0,
            second: 0,
            culprit: 0,
            other: 0,
        },
    };
    store_report(&report, out);
}
