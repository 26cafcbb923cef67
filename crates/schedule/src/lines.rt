// The lines that answer a schedule.
ghost use Rattle.std.specs.Prelude.{◌≡◌, ◌+◌, ◌-◌, ◌/◌, ◌%◌, ◌<◌, ◌≤◌, ◌^◌, [], ◌∷◌, ◌++◌, length, take, IfOk, string_bytes, decimal};
ghost use Rattle.basis.specs.Answers.{spoken};
ghost use Rattle.schedule.specs.Lines.{line_of, line_text, lines_from, Adds};

use crate::line::Line;
use basis::answer::Answer;
use basis::refusal::Refusal;
use itoa::Buffer;
use std::alloc::{AllocError, Global};
use std::str::from_utf8_unchecked;

// The byte of a digit.
fn digit(value: u16) -> u8
    requires { value < 10 }
    ensures { result ≡ 48 + value }
{
    b'0' + value as u8
}

// The byte of the last digit of a number, by a tenth of it, rounded down: what ten times the tenth leaves. By `%` the machine code would divide once
// more.
fn last_digit(number: u16, tenth: u16) -> u8
    requires { tenth ≡ number / 10 }
    ensures { result ≡ 48 + number % 10 }
{
    digit(number - 10 * tenth)
}

// The four digits of a number that has so many. This function and the next stay two: one over the number of digits, with a loop over their
// places, and `itoa` for these numbers too made the whole replay 6 and 11 per cent slower.
fn four_digits(number: u16) -> [u8; 4]
    requires { (1000 ≤ number) × (number < 10000) }
    ensures { result ≡ decimal number }
{
    let tens = number / 10;
    let hundreds = tens / 10;
    let thousands = hundreds / 10;
    [
        digit(thousands),
        last_digit(hundreds, thousands),
        last_digit(tens, hundreds),
        last_digit(number, tens),
    ]
}

// The five digits of a number that has so many.
fn five_digits(number: u16) -> [u8; 5]
    requires { 10000 ≤ number }
    ensures { result ≡ decimal number }
{
    let tens = number / 10;
    let hundreds = tens / 10;
    let thousands = hundreds / 10;
    let ten_thousands = thousands / 10;
    [
        digit(ten_thousands),
        last_digit(thousands, ten_thousands),
        last_digit(hundreds, thousands),
        last_digit(tens, hundreds),
        last_digit(number, tens),
    ]
}

// Adds a number. Most lines of a long schedule have four or five digits, which are written at once.
#[inline(always)]
fn push_number(text: &mut String, number: u16) -> Result<(), AllocError>
    ensures { Adds (string_bytes text.old) (string_bytes text.new) result (decimal number) }
{
    if number >= 10000 {
        let digits = five_digits(number);
        return text.push_str(unsafe { from_utf8_unchecked(&digits) });
    }
    if number >= 1000 {
        let digits = four_digits(number);
        return text.push_str(unsafe { from_utf8_unchecked(&digits) });
    }
    let mut digits = Buffer::new();
    text.push_str(digits.format(number))
}

// Adds what stands behind the number in the line of a refusal.
fn push_refusal(text: &mut String, refusal: Refusal) -> Result<(), AllocError>
    ensures { Adds (string_bytes text.old) (string_bytes text.new) result
        (32 ∷ (spoken (Answer.Refused refusal) ++ 10 ∷ [])) }
{
    text.push_str(" refused ")?;
    push_number(text, u16::from(u8::from(refusal)))?;
    text.push_str("\n")
}

// Adds what stands behind the number in a line: a space, the answer, and a line feed. Not by `write!`, which promises nothing of a text
// where memory runs out.
#[inline(always)]
fn push_answer(text: &mut String, answer: Answer) -> Result<(), AllocError>
    ensures { Adds (string_bytes text.old) (string_bytes text.new) result (32 ∷ (spoken answer ++ 10 ∷ [])) }
{
    match answer {
        Answer::No => text.push_str(" no\n"),
        Answer::Yes => text.push_str(" yes\n"),
        Answer::Ok => text.push_str(" ok\n"),
        Answer::Wait => text.push_str(" wait\n"),
        Answer::Full => text.push_str(" full\n"),
        Answer::Refused(refusal) => push_refusal(text, refusal),
    }
}

/// The line of a record by its number: nothing is allocated, and nothing fails.
#[inline(always)]
pub fn line(number: u16, answer: Answer) -> Line
    ensures { result ≡ record { number = number; answer = answer } }
{
    Line { number, answer }
}

/// Adds a line. Where memory runs out, what stood before stays at the front of the text.
#[inline(always)]
pub fn push_line(text: &mut String, line: Line) -> Result<(), AllocError>
    ensures { Adds (string_bytes text.old) (string_bytes text.new) result (line_text line) }
{
    push_number(text, line.number)?;
    push_answer(text, line.answer)
}

// Adds a line by a number of any size: a `Line` has one of 16 bits, and no schedule has a line past those.
#[inline(always)]
fn push_numbered(text: &mut String, number: usize, answer: Answer) -> Result<(), AllocError>
    ensures { Adds (string_bytes text.old) (string_bytes text.new) result (line_of number answer) }
{
    if let Ok(number) = u16::try_from(number) {
        return push_line(text, line(number, answer));
    }
    let mut digits = Buffer::new();
    text.push_str(digits.format(number))?;
    push_answer(text, answer)
}

/// Adds the lines of answers one after another, the first with that number, however many there are. Where memory runs out, what stood before
/// stays at the front of the text.
#[tactic(auto, using(std::proofs::lemmas::Grind::common_steps, crate::proofs::Numbered::lines_more), unfolding(crate::specs::Lines::lines_from))]
pub fn push_lines(text: &mut String, first: u16, answers: &[Answer]) -> Result<(), AllocError>
    ensures { Adds (string_bytes text.old) (string_bytes text.new) result (lines_from first answers.now) }
{
    for (index, answer) in answers.iter().enumerate() {
        push_numbered(text, usize::from(first) + index, *answer)?;
    }
    Ok(())
}

/// A text of one line.
pub fn text_of_line(heap: Global, line: Line) -> Result<String, AllocError>
    ensures { IfOk result (λ text. string_bytes text ≡ line_text line) }
{
    let mut text = String::new(heap);
    push_line(&mut text, line)?;
    Ok(text)
}
