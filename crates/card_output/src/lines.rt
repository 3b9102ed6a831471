// The text that program `card` prints, as bytes.
ghost use Rattle.std.specs.Prelude.{◌≡◌, ◌++◌, ◌+◌, ◌*◌, ◌/◌, ◌%◌, ◌^◌, ◌≤◌, ◌<◌, length};
ghost use Rattle.scope.specs.Text.{bytes};
ghost use Rattle.scope.specs.Print.{decimal, hex_digit, sixteen_digits, float, line, printed, refused_text};
ghost use Rattle.refusals.specs.Numbers.{number};
ghost use Rattle.intake.specs.Limits.{max_circles};
ghost use Rattle.card_output.specs.Texts.{IsText, NoneAbove, lines_of, lines_room, layout_of};
ghost use Rattle.card_output.specs.Puts.{Put};

use crate::puts::{put_byte, put_bytes};
use crate::{MAX_TEXT, Text};
use bits::bits_of;
use layout::normalize::Arrangement;
use refusals::Refusal;
use shapes::circle::Circle;

// What a refusal prints.
pub(crate) fn refused_text(refusal: Refusal) -> Text
    ensures { IsText (refused_text (number refusal)) result.length result.bytes }
{
    let mut bytes = [0u8; MAX_TEXT];
    let end = put_count(&mut bytes, 0, b"refused ", refusal.number() as u64);
    let length = put_byte(&mut bytes, end, b'\n');
    Text { length, bytes }
}

// What a layout prints: a line for the whole, then one for each of its circles.
pub(crate) fn printed(circles: &[Circle], laid: &Arrangement) -> Text
    requires { (length circles.now ≤ max_circles) × (laid.now.count ≤ length circles.now)
        × NoneAbove (length circles.now) laid.now.numbers }
    ensures { IsText (printed (layout_of laid.now circles.now)) result.length result.bytes }
{
    let mut bytes = [0u8; MAX_TEXT];
    let circles_end = put_count(&mut bytes, 0, b"circles ", circles.len() as u64);
    let clusters_end = put_count(&mut bytes, circles_end, b" clusters ", laid.count as u64);
    let moved_end = put_digits(&mut bytes, clusters_end, b" moved ", laid.moved);
    let padding_end = put_digits(&mut bytes, moved_end, b" padding ", bits_of(laid.padding));
    let head = put_byte(&mut bytes, padding_end, b'\n');
    let length = put_lines(&mut bytes, head, circles, &laid.numbers);
    Text { length, bytes }
}

// ---- lines

// Circle, cluster, x, y, radius, ink.
fn put_line(out: &mut [u8], at: usize, i: usize, cluster: u8, c: Circle) -> usize
    requires { (i < max_circles) × (cluster ≤ i) × (at + 63 ≤ length out.old) }
    ensures { Put (line i cluster c) at out.old result out.new × (result ≤ at + 63) × (i < 10 → result ≤ at + 61) }
{
    let center = c.center;
    let numbers_end = put_pair(out, at, i as u64, cluster as u64);
    let x_end = put_float(out, numbers_end, center.x);
    let y_end = put_float(out, x_end, center.y);
    let radius_end = put_float(out, y_end, c.radius);
    let ink_end = put_count(out, radius_end, b" ", c.ink as u64);
    put_byte(out, ink_end, b'\n')
}

fn put_lines(out: &mut [u8], at: usize, circles: &[Circle], numbers: &[u8]) -> usize
    requires { (length circles.now ≤ max_circles) × (length numbers.now ≡ max_circles) × NoneAbove (length circles.now) numbers.now
        × (at + lines_room max_circles ≤ length out.old) }
    ensures { Put (lines_of circles.now numbers.now (length circles.now)) at out.old result out.new
        × (result ≤ at + lines_room max_circles) }
{
    let mut next = at;
    for (i, c) in circles.iter().enumerate() {
        next = put_line(out, next, i, numbers[i], *c);
    }
    next
}

// ---- parts of a line

// A word and a number in decimal, of at most 5 digits.
fn put_count(out: &mut [u8], at: usize, word: &[u8], n: u64) -> usize
    requires { (n < 100000) × (at + length word.now + 5 ≤ length out.old) }
    ensures { Put (word.now ++ decimal n) at out.old result out.new × (result ≤ at + length word.now + 5) }
{
    let next = put_bytes(out, at, word);
    put_decimal(out, next, n)
}

// A word and a number in sixteen digits.
fn put_digits(out: &mut [u8], at: usize, word: &[u8], n: u64) -> usize
    requires { at + length word.now + 16 ≤ length out.old }
    ensures { Put (word.now ++ sixteen_digits n) at out.old result out.new × (result ≡ at + length word.now + 16) }
{
    let next = put_bytes(out, at, word);
    put_sixteen(out, next, n)
}

// A space and a float. Either zero is sixteen 0s.
fn put_float(out: &mut [u8], at: usize, x: f64) -> usize
    requires { at + 17 ≤ length out.old }
    ensures { Put (bytes " " ++ float x) at out.old result out.new × (result ≡ at + 17) }
{
    put_digits(out, at, b" ", bits_of(x))
}

// Two numbers of at most 2 digits each, the second not above the first, with a space between them.
fn put_pair(out: &mut [u8], at: usize, a: u64, b: u64) -> usize
    requires { (a < 100) × (b ≤ a) × (at + 5 ≤ length out.old) }
    ensures { Put (decimal a ++ bytes " " ++ decimal b) at out.old result out.new × (result ≤ at + 5) × (a < 10 → result ≤ at + 3) }
{
    let first = put_decimal(out, at, a);
    let space = put_byte(out, first, b' ');
    put_decimal(out, space, b)
}

// ---- numbers

// A number in decimal: the digits before its last, if there are any, and the last.
fn put_decimal(out: &mut [u8], at: usize, n: u64) -> usize
    requires { at + length (decimal n) ≤ length out.old }
    ensures { Put (decimal n) at out.old result out.new }
{
    let digit = decimal_digit(n % 10);
    if n < 10 {
        return put_byte(out, at, digit);
    }
    let next = put_decimal(out, at, n / 10);
    put_byte(out, next, digit)
}

fn decimal_digit(d: u64) -> u8
    requires { d < 10 }
    ensures { result ≡ 48 + d }
{
    48 + d as u8
}

// Sixteen hexadecimal digits, the highest first.
fn put_sixteen(out: &mut [u8], at: usize, n: u64) -> usize
    requires { at + 16 ≤ length out.old }
    ensures { Put (sixteen_digits n) at out.old result out.new × (result ≡ at + 16) }
{
    let mut next = at;
    for k in (0..16).rev() {
        next = put_byte(out, next, digit_at(n, k));
    }
    next
}

// The hexadecimal digit with k digits behind it.
fn digit_at(n: u64, k: u64) -> u8
    requires { k < 16 }
    ensures { result ≡ hex_digit (n / 16 ^ k % 16) }
{
    hexadecimal_digit((n >> (4 * k)) % 16)
}

// 0 to 9, a to f.
fn hexadecimal_digit(d: u64) -> u8
    requires { d < 16 }
    ensures { result ≡ hex_digit d }
{
    if d < 10 { 48 + d as u8 } else { 87 + d as u8 }
}
