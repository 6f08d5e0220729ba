//! What a console line asks for.
ghost use Rattle.std.specs.Prelude.{◌≡◌};
ghost use Rattle.std.specs.Char.{is_ascii_digit};
ghost use Rattle.std.specs.List.{list_all};
ghost use Rattle.campaign_console.specs.LineCalls.{request_of, request_in, extension_of, bare_line};
ghost use Rattle.campaign_console.specs.LineCalls.{IsAskable};

use decimal_text::read_whole;
use ra_base::limits::{MOST_LINE_BYTES, MOST_SAMPLES};

/// What a console line asks for.
#[derive(Clone, Copy, Debug, PartialEq, Eq)]
pub enum Request {
    /// How far the campaign has come.
    Progress,
    /// What was deposited so far.
    Report,
    /// So many samples behind the target.
    Extend { more: u32 },
    /// That no extension is taken any more.
    Seal,
    /// That no samples are given out any more.
    Cancel,
    /// Nothing: the line has more bytes than a line may have.
    Long,
    /// Nothing: it is none of these.
    Unknown,
}

/// What a line asks for.
#[tactic(auto, unfolding(crate::specs::LineCalls::request_of))]
pub(crate) fn request_of(line: &[u8]) -> Request
    ensures is { result ≡ request_of line.now }
    ensures askable { IsAskable result }
{
    if line.len() > MOST_LINE_BYTES as usize {
        return Request::Long;
    }
    request_in(bare_line(line))
}

// The line without the carriage return at its end, where it has one.
fn bare_line(line: &[u8]) -> &[u8]
    ensures { result.now ≡ bare_line line.now }
{
    match line.strip_suffix(b"\r".as_slice()) {
        Some(bare) => bare,
        None => line,
    }
}

// What a line without carriage return asks for.
fn request_in(bare: &[u8]) -> Request
    ensures is { result ≡ request_in bare.now }
    ensures askable { IsAskable result }
{
    if bare == b"progress".as_slice() {
        Request::Progress
    } else if bare == b"report".as_slice() {
        Request::Report
    } else if bare == b"seal".as_slice() {
        Request::Seal
    } else if bare == b"cancel".as_slice() {
        Request::Cancel
    } else {
        match bare.strip_prefix(b"extend ".as_slice()) {
            Some(number) => extension_of(number),
            None => Request::Unknown,
        }
    }
}

// What a line asks for that has this behind `extend `.
fn extension_of(number: &[u8]) -> Request
    ensures is { result ≡ extension_of number.now }
    ensures askable { IsAskable result }
{
    if number.is_empty() || number.len() > 7 || !are_digits(number) {
        return Request::Unknown;
    }
    match read_whole(number) {
        Ok(more) if 1 <= more && more <= u64::from(MOST_SAMPLES) => Request::Extend {
            more: more as u32,
        },
        _ => Request::Unknown,
    }
}

// Whether all bytes are digits.
fn are_digits(bytes: &[u8]) -> bool
    ensures { result ≡ list_all is_ascii_digit bytes.now }
{
    for byte in bytes {
        if !byte.is_ascii_digit() {
            return false;
        }
    }
    true
}
