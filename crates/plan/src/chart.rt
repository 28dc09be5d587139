ghost use Rattle.std.specs.Prelude.{◌≡◌, ◌<◌};
ghost use Rattle.plan.specs.Chart.{answer_of, decision, question_number, refusal_of};

use fault::level::Level;
use fault::refusal::Refusal;

// What is asked of a page. A door is an address that is a multiple of 64, where a level of Call is enough to enter.
#[derive(Clone, Copy, PartialEq, Eq, Debug)]
pub enum Question {
    Load,
    Store,
    Fetch,
    Keep,
    Door,
    Elsewhere,
}

// The question's number, 0 to 5.
impl From<Question> for u8 {
    ghost from_gives = { λ question number. number ≡ question_number question };

    fn from(question: Question) -> u8 {
        question as u8
    }
}

// The printed answers: entry 24 × bits + 6 × level + question is 0, or the refusal's number.
// Kept: numbers, since the project has the chart stand as the 768 numbers that are printed.
const CHART: [u8; 768] = [
    9, 9, 8, 8, 9, 9, 9, 9, 8, 8, 9, 9, 9, 9, 8, 8, 9, 9, 9, 9, 8, 8, 9, 9, 10, 9, 8, 8, 9, 9, 10,
    9, 8, 8, 9, 9, 0, 9, 8, 8, 9, 9, 0, 9, 8, 8, 9, 9, 9, 10, 8, 8, 9, 9, 9, 10, 8, 8, 9, 9, 9, 10,
    8, 8, 9, 9, 9, 0, 8, 8, 9, 9, 10, 10, 8, 8, 9, 9, 10, 10, 8, 8, 9, 9, 0, 10, 8, 8, 9, 9, 0, 0,
    8, 8, 9, 9, 9, 9, 8, 8, 10, 10, 9, 9, 8, 8, 0, 11, 9, 9, 8, 8, 0, 0, 9, 9, 8, 8, 0, 0, 10, 9,
    8, 8, 10, 10, 10, 9, 8, 8, 0, 11, 0, 9, 8, 8, 0, 0, 0, 9, 8, 8, 0, 0, 9, 10, 8, 8, 10, 10, 9,
    10, 8, 8, 0, 11, 9, 10, 8, 8, 0, 0, 9, 0, 8, 8, 0, 0, 10, 10, 8, 8, 10, 10, 10, 10, 8, 8, 0,
    11, 0, 10, 8, 8, 0, 0, 0, 0, 8, 8, 0, 0, 9, 9, 8, 8, 9, 9, 9, 9, 8, 8, 9, 9, 9, 9, 8, 8, 9, 9,
    9, 9, 8, 8, 9, 9, 10, 9, 8, 8, 9, 9, 10, 9, 8, 8, 9, 9, 0, 9, 8, 8, 9, 9, 0, 9, 8, 8, 9, 9, 9,
    10, 8, 8, 9, 9, 9, 10, 8, 8, 9, 9, 9, 10, 8, 8, 9, 9, 9, 0, 8, 8, 9, 9, 10, 10, 8, 8, 9, 9, 10,
    10, 8, 8, 9, 9, 0, 10, 8, 8, 9, 9, 0, 0, 8, 8, 9, 9, 9, 9, 8, 8, 10, 10, 9, 9, 8, 8, 0, 11, 9,
    9, 8, 8, 0, 0, 9, 9, 8, 8, 0, 0, 10, 9, 8, 8, 10, 10, 10, 9, 8, 8, 0, 11, 0, 9, 8, 8, 0, 0, 0,
    9, 8, 8, 0, 0, 9, 10, 8, 8, 10, 10, 9, 10, 8, 8, 0, 11, 9, 10, 8, 8, 0, 0, 9, 0, 8, 8, 0, 0,
    10, 10, 8, 8, 10, 10, 10, 10, 8, 8, 0, 11, 0, 10, 8, 8, 0, 0, 0, 0, 8, 8, 0, 0, 8, 8, 9, 9, 9,
    9, 8, 8, 9, 9, 9, 9, 8, 8, 9, 9, 9, 9, 8, 8, 9, 9, 9, 9, 8, 8, 10, 9, 9, 9, 8, 8, 10, 9, 9, 9,
    8, 8, 0, 9, 9, 9, 8, 8, 0, 9, 9, 9, 8, 8, 9, 10, 9, 9, 8, 8, 9, 10, 9, 9, 8, 8, 9, 10, 9, 9, 8,
    8, 9, 0, 9, 9, 8, 8, 10, 10, 9, 9, 8, 8, 10, 10, 9, 9, 8, 8, 0, 10, 9, 9, 8, 8, 0, 0, 9, 9, 8,
    8, 9, 9, 10, 10, 8, 8, 9, 9, 0, 11, 8, 8, 9, 9, 0, 0, 8, 8, 9, 9, 0, 0, 8, 8, 10, 9, 10, 10, 8,
    8, 10, 9, 0, 11, 8, 8, 0, 9, 0, 0, 8, 8, 0, 9, 0, 0, 8, 8, 9, 10, 10, 10, 8, 8, 9, 10, 0, 11,
    8, 8, 9, 10, 0, 0, 8, 8, 9, 0, 0, 0, 8, 8, 10, 10, 10, 10, 8, 8, 10, 10, 0, 11, 8, 8, 0, 10, 0,
    0, 8, 8, 0, 0, 0, 0, 8, 8, 9, 9, 9, 9, 8, 8, 9, 9, 9, 9, 8, 8, 9, 9, 9, 9, 8, 8, 9, 9, 9, 9, 8,
    8, 10, 9, 9, 9, 8, 8, 10, 9, 9, 9, 8, 8, 0, 9, 9, 9, 8, 8, 0, 9, 9, 9, 8, 8, 9, 10, 9, 9, 8, 8,
    9, 10, 9, 9, 8, 8, 9, 10, 9, 9, 8, 8, 9, 0, 9, 9, 8, 8, 10, 10, 9, 9, 8, 8, 10, 10, 9, 9, 8, 8,
    0, 10, 9, 9, 8, 8, 0, 0, 9, 9, 8, 8, 9, 9, 10, 10, 8, 8, 9, 9, 0, 11, 8, 8, 9, 9, 0, 0, 8, 8,
    9, 9, 0, 0, 8, 8, 10, 9, 10, 10, 8, 8, 10, 9, 0, 11, 8, 8, 0, 9, 0, 0, 8, 8, 0, 9, 0, 0, 8, 8,
    9, 10, 10, 10, 8, 8, 9, 10, 0, 11, 8, 8, 9, 10, 0, 0, 8, 8, 9, 0, 0, 0, 8, 8, 10, 10, 10, 10,
    8, 8, 10, 10, 0, 11, 8, 8, 0, 10, 0, 0, 8, 8, 0, 0, 0, 0,
];

// What the chart says of a page with these bits, at this level.
pub(crate) fn decide(bits: u8, level: Level, question: Question) -> Option<Refusal>
    requires { bits < 32 }
    ensures { result ≡ decision bits level question }
{
    refusal(printed(bits, level, question))
}

fn printed(bits: u8, level: Level, question: Question) -> u8
    requires { bits < 32 }
    ensures { result ≡ answer_of (decision bits level question) }
{
    CHART[24 * usize::from(bits)
        + 6 * usize::from(u8::from(level))
        + usize::from(u8::from(question))]
}

// Kept: a match on four numbers, since the chart prints no others; a conversion of every refusal's number is no plainer.
fn refusal(answer: u8) -> Option<Refusal>
    ensures { result ≡ refusal_of answer }
{
    match answer {
        8 => Some(Refusal::WrongPageKind),
        9 => Some(Refusal::MissingBit),
        10 => Some(Refusal::LevelTooLow),
        11 => Some(Refusal::NotADoor),
        _ => None,
    }
}
