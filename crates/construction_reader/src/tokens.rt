//! The tokens of a line.

ghost use Rattle.std.specs.Prelude.{◌≡◌, ℕ, List, IfOk, not, length, ◌<◌};
ghost use Rattle.std.specs.List.{list_all, position};
ghost use Rattle.construction_reader.specs.Words.{◌is◌, is_letter, is_name_byte, is_sign, is_name, is_keyword};
ghost use Rattle.construction_reader.specs.Tokens.{begins_token, front_length, tokens_of};

use cay_base::NoMemory;
use std::alloc::Global;
use std::marker::Model;

/// A token: contracts see its bytes.
#[derive(Drop)]
pub struct Token<'a> {
    bytes: &'a [u8],
}

impl<'a> Model for Token<'a> {
    ghost Value = { List ℕ };

    ghost view = { λ t. t.bytes.now };
}

const KEYWORDS: [&[u8]; 19] = [
    b"construction",
    b"rank",
    b"free",
    b"point",
    b"line",
    b"plane",
    b"join",
    b"meet",
    b"on",
    b"with",
    b"pascal",
    b"through",
    b"conclude",
    b"collinear",
    b"concurrent",
    b"coplanar",
    b"meeting",
    b"incident",
    b"conic",
];

#[tactic(auto, unfolding(crate::specs::Words::is_keyword))]
fn is_keyword(token: &[u8]) -> bool
    ensures { result ≡ is_keyword token.now }
{
    KEYWORDS.contains(&token)
}

pub fn is_letter(byte: u8) -> bool
    ensures { result ≡ is_letter byte }
{
    byte.is_ascii_alphabetic()
}

pub fn is_name_byte(byte: u8) -> bool
    ensures { result ≡ is_name_byte byte }
{
    is_letter(byte) || byte.is_ascii_digit() || byte == b'_' || byte == b'\''
}

pub fn is_sign(byte: u8) -> bool
    ensures { result ≡ is_sign byte }
{
    matches!(byte, b'(' | b')' | b'=')
}

fn is_run(bytes: &[u8]) -> bool
    ensures { result ≡ list_all is_name_byte bytes.now }
{
    bytes.iter().all(|byte| is_name_byte(*byte))
}

impl<'a> Token<'a> {
    pub fn of(bytes: &'a [u8]) -> Token<'a>
        ensures { result ≡ bytes.now }
    {
        Token { bytes }
    }

    pub fn bytes(&self) -> &[u8]
        ensures { result.now ≡ self.now }
    {
        self.bytes
    }

    pub fn is(&self, word: &[u8]) -> bool
        ensures { result ≡ (self.now is word.now) }
    {
        self.bytes == word
    }

    #[tactic(auto, unfolding(crate::specs::Words::is_name))]
    pub fn is_name(&self) -> bool
        ensures { result ≡ is_name self.now }
    {
        match self.bytes {
            [] => false,
            [first, ..] => {
                is_letter(*first)
                    && self.bytes.len() <= 32
                    && is_run(self.bytes)
                    && !is_keyword(self.bytes)
            }
        }
    }
}

fn run_end(bytes: &[u8]) -> Option<usize>
    ensures { result ≡ position (λ b. not (is_name_byte b)) bytes.now }
{
    bytes.iter().position(|byte| !is_name_byte(*byte))
}

/// Whether a token begins with this byte.
fn begins_token(byte: u8) -> bool
    ensures { result ≡ begins_token byte }
{
    is_name_byte(byte) || is_sign(byte)
}

/// How many bytes the front token has, or 1 at a space.
#[tactic(auto, using(crate::proofs::Places::places))]
fn front_length(bytes: &[u8]) -> usize
    requires { 0 < length bytes.now }
    ensures { result ≡ front_length bytes.now }
{
    if is_name_byte(bytes[0]) {
        run_end(bytes).unwrap_or(bytes.len())
    } else {
        1
    }
}

/// The tokens: the longest runs of name bytes, and each sign by itself.
pub fn tokens<'a>(alloc: Global, bytes: &'a [u8]) -> Result<Vec<Token<'a>>, NoMemory>
    ensures { IfOk result (λ tokens. tokens.items ≡ tokens_of bytes.now) }
{
    let mut tokens = Vec::new(alloc);
    let mut rest = bytes;
    while !rest.is_empty() {
        let first = rest[0];
        let (front, after) = rest.split_at(front_length(rest));
        if begins_token(first) {
            tokens.push(Token { bytes: front })?;
        }
        rest = after;
    }
    Ok(tokens)
}
