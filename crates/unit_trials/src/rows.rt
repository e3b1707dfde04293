//! A row: the words of its input, and what it comes to.
ghost use Rattle.std.specs.Prelude.{◌≤◌, length};

use std::alloc::{AllocError, Global};
use std::fmt::Display;
use std::mem;
use std::str::SplitWhitespace;
use uicc_types::ByteList;

/// A row that is carried out. Where a word is missing or none that its unit takes, or memory runs out, the row keeps that in mind and
/// gives some value, so that a unit needn't ask.
#[derive(Drop)]
pub struct Row<'a> {
    alloc: Global,
    words: SplitWhitespace<'a>,
    shown: String,
    is_none: bool,
    has_no_memory: bool,
}

impl<'a> Row<'a> {
    pub fn new(alloc: Global, input: &'a str) -> Row<'a> {
        Row {
            alloc,
            words: input.split_whitespace(),
            shown: String::new(alloc),
            is_none: false,
            has_no_memory: false,
        }
    }

    /// Where a unit takes memory.
    pub fn alloc(&self) -> Global {
        self.alloc
    }

    /// The words are none that the unit takes.
    pub fn reject(&mut self) {
        self.is_none = true;
    }

    /// What takes memory must not have failed.
    pub fn need<T: Drop, E: Drop>(&mut self, outcome: Result<T, E>) {
        if outcome.is_err() {
            self.lack_memory();
        }
    }

    /// Memory ran out.
    pub fn lack_memory(&mut self) {
        self.has_no_memory = true;
    }

    /// What the row came to: `ok` where nothing was shown; whether it was one of its unit; and nothing where memory ran out.
    pub fn finish(mut self) -> Result<(String, bool), AllocError> {
        if self.words.next().is_some() {
            self.is_none = true;
        }
        if self.is_none {
            self.show("no row of this unit");
        } else if self.shown.is_empty() {
            self.show("ok");
        }
        if self.has_no_memory {
            return Err(AllocError);
        }
        Ok((self.shown, !self.is_none))
    }

    /// The next word, if there is one.
    pub fn next(&mut self) -> Option<&'a str> {
        self.words.next()
    }

    /// The next word.
    pub fn word(&mut self) -> &'a str {
        match self.words.next() {
            Some(word) => word,
            None => {
                self.reject();
                ""
            }
        }
    }

    /// Whether the next word is the first of these two; it is one of them.
    pub fn either(&mut self, first: &str, second: &str) -> bool {
        let word = self.word();
        if word != first && word != second {
            self.reject();
        }
        word == first
    }

    /// All further words.
    pub fn words(&mut self) -> SplitWhitespace<'a> {
        mem::replace(&mut self.words, "".split_whitespace())
    }

    /// What a word was read as.
    fn read<T: Default + Drop, E: Drop>(&mut self, read: Result<T, E>) -> T {
        match read {
            Ok(value) => value,
            Err(_) => {
                self.reject();
                T::default()
            }
        }
    }

    /// A decimal number below 256.
    pub fn small_number(&mut self) -> u8 {
        let word = self.word();
        self.small_number_in(word)
    }

    /// A decimal number below 2^16.
    pub fn number(&mut self) -> u16 {
        let word = self.word();
        self.number_in(word)
    }

    /// A decimal number below 2^32.
    pub fn large_number(&mut self) -> u32 {
        let number = self.word().parse::<u32>();
        self.read(number)
    }

    /// A decimal number below 2^64.
    pub fn count(&mut self) -> u64 {
        let number = self.word().parse::<u64>();
        self.read(number)
    }

    /// A decimal number of at most so much.
    pub fn number_to(&mut self, most: usize) -> usize
        ensures { result ≤ most }
    {
        match self.word().parse::<usize>() {
            Ok(number) if number <= most => number,
            _ => {
                self.reject();
                0
            }
        }
    }

    /// A small number, or none for `-`.
    pub fn optional_number(&mut self) -> Option<u8> {
        match self.word() {
            "-" => None,
            word => Some(self.small_number_in(word)),
        }
    }

    pub fn small_number_in(&mut self, word: &str) -> u8 {
        self.read(word.parse::<u8>())
    }

    pub fn number_in(&mut self, word: &str) -> u16 {
        self.read(word.parse::<u16>())
    }

    /// Decimal numbers, parted by commas, or none for `-`.
    pub fn numbers(&mut self) -> Vec<u32> {
        let mut numbers = Vec::new(self.alloc);
        let word = self.word();
        if word != "-" {
            for part in word.split(',') {
                let number = self.read(part.parse::<u32>());
                self.need(numbers.push(number));
            }
        }
        numbers
    }

    /// A byte in hexadecimal digits.
    pub fn byte(&mut self) -> u8 {
        let word = self.word();
        self.byte_in(word)
    }

    pub fn byte_in(&mut self, word: &str) -> u8 {
        self.read(u8::from_str_radix(word, 16))
    }

    /// Two bytes in hexadecimal digits.
    pub fn double_byte(&mut self) -> u16 {
        let word = self.word();
        self.double_byte_in(word)
    }

    pub fn double_byte_in(&mut self, word: &str) -> u16 {
        self.read(u16::from_str_radix(word, 16))
    }

    /// The bytes of the next word.
    pub fn bytes(&mut self) -> Vec<u8> {
        let word = self.word();
        self.bytes_in(word)
    }

    /// The bytes of all further words.
    pub fn all_bytes(&mut self) -> Vec<u8> {
        let mut bytes = Vec::new(self.alloc);
        for word in self.words() {
            self.add_parts(word, &mut bytes);
        }
        bytes
    }

    /// The bytes of the next word, which fit a list.
    pub fn list<const N: usize>(&mut self) -> ByteList<N> {
        let word = self.word();
        self.list_in(word)
    }

    pub fn list_in<const N: usize>(&mut self, word: &str) -> ByteList<N> {
        let mut list = ByteList::new();
        if list.append(self.bytes_in(word).as_slice()).is_err() {
            self.reject();
        }
        list
    }

    /// As many bytes of `FF` as the next number says, at most so many.
    pub fn blank(&mut self, most: usize) -> Vec<u8>
        ensures { length result.items ≤ most }
    {
        let count = self.number_to(most);
        self.erased(count)
    }

    /// So many bytes of `FF`.
    pub fn erased(&mut self, count: usize) -> Vec<u8>
        ensures { length result.items ≤ count }
    {
        match vec![in self.alloc; 0xFFu8; count] {
            Ok(bytes) => bytes,
            Err(_) => {
                self.lack_memory();
                Vec::new(self.alloc)
            }
        }
    }

    /// The bytes of a word: parts joined by `+`, each of them digits, digits with `*` and how often they stand there, or a text in
    /// quotes. `-` is no bytes.
    pub fn bytes_in(&mut self, word: &str) -> Vec<u8> {
        let mut bytes = Vec::new(self.alloc);
        self.add_parts(word, &mut bytes);
        bytes
    }

    fn add_parts(&mut self, word: &str, bytes: &mut Vec<u8>) {
        for part in word.split('+') {
            self.add_part(part, bytes);
        }
    }

    fn add_part(&mut self, part: &str, bytes: &mut Vec<u8>) {
        match (part.as_bytes(), part.split_once('*')) {
            (b"-", _) => {}
            ([b'"', text @ .., b'"'], _) => self.need(bytes.extend_from_slice(text)),
            (_, Some((digits, times))) => {
                for _ in 0..self.read(times.parse::<u16>()) {
                    self.add_digits(digits, bytes);
                }
            }
            (_, None) => self.add_digits(part, bytes),
        }
    }

    fn add_digits(&mut self, digits: &str, bytes: &mut Vec<u8>) {
        match hex::decode(self.alloc, digits) {
            Ok(decoded) => self.need(bytes.extend_from_slice(decoded.as_slice())),
            Err(_) => self.reject(),
        }
    }

    /// The text of all further words, with one space between them. `\n`, `\r`, `\t` and `\s` stand for a line feed, a carriage return, a
    /// tab and a space, `\x1F` and `\x7F` for these bytes, and `\(COUNT TEXT)` for a text so many times.
    pub fn text(&mut self) -> String {
        let mut written = String::new(self.alloc);
        for word in self.words() {
            if !written.is_empty() {
                self.need(written.push_str(" "));
            }
            self.need(written.push_str(word));
        }
        let mut text = String::new(self.alloc);
        let mut parts = written.as_str().split('\\');
        self.need(text.push_str(parts.next().unwrap_or("")));
        for part in parts {
            self.add_text(&mut text, part);
        }
        text
    }

    /// Adds what stands after a backslash, up to the next.
    fn add_text(&mut self, text: &mut String, part: &str) {
        for (name, stands_for) in ESCAPES {
            if let Some(rest) = part.strip_prefix(name) {
                self.need(text.push_str(stands_for));
                self.need(text.push_str(rest));
                return;
            }
        }
        match part.strip_prefix('(') {
            Some(repeated) => self.add_repeated(text, repeated),
            None => self.reject(),
        }
    }

    /// Adds a text as often as the number before it says, and what stands after its bracket.
    fn add_repeated(&mut self, text: &mut String, repeated: &str) {
        let (inside, rest) = repeated.split_once(')').unwrap_or((repeated, ""));
        let (count, part) = inside.split_once(' ').unwrap_or((inside, ""));
        for _ in 0..self.read(count.parse::<u16>()) {
            self.need(text.push_str(part));
        }
        self.need(text.push_str(rest));
    }

    pub fn show(&mut self, text: &str) {
        let outcome = self.shown.push_str(text);
        self.need(outcome);
    }

    /// A comma after what was shown before.
    pub fn part(&mut self) {
        if !self.shown.is_empty() {
            self.show(", ");
        }
    }

    /// Shows a number, after those that were shown before.
    pub fn show_listed(&mut self, number: u64) {
        let before = if self.shown.is_empty() { "" } else { " " };
        self.show_number(before, number);
    }

    /// Shows what a value says of itself.
    pub fn show_display<T: Display>(&mut self, value: &T) {
        let outcome = write!(self.shown, "{value}");
        self.need(outcome);
    }

    /// Shows `nothing` where nothing was shown.
    pub fn end_list(&mut self) {
        if self.shown.is_empty() {
            self.show("nothing");
        }
    }

    /// Shows a decimal number after these words.
    pub fn show_number(&mut self, words: &str, number: impl Into<u64>) {
        self.show(words);
        self.show(itoa::Buffer::new().format(number.into()));
    }

    /// Shows a byte in digits after these words.
    pub fn show_byte(&mut self, words: &str, byte: u8) {
        self.show(words);
        self.show_digits(&[byte]);
    }

    pub fn show_double_byte(&mut self, words: &str, number: u16) {
        self.show(words);
        self.show_digits(&number.to_be_bytes());
    }

    fn show_digits(&mut self, bytes: &[u8]) {
        match hex::encode_upper(self.alloc, bytes) {
            Ok(digits) => self.show(digits.as_str()),
            Err(_) => self.lack_memory(),
        }
    }

    /// Shows bytes in digits after these words; eight or more equal ones as the byte, `*` and their count, with `+` between such parts;
    /// no bytes as `-`.
    pub fn show_bytes(&mut self, words: &str, bytes: &[u8]) {
        self.show(words);
        if bytes.is_empty() {
            self.show("-");
        }
        let mut before = Part::Nothing;
        for run in bytes.chunk_by(|one, next| one == next) {
            before = self.show_run(before, run);
        }
    }

    /// Shows equal bytes after what stands before them.
    fn show_run(&mut self, before: Part, run: &[u8]) -> Part {
        let part = if run.len() < LONG_RUN {
            Part::Digits
        } else {
            Part::Count
        };
        match (before, part) {
            (Part::Nothing, _) | (Part::Digits, Part::Digits) => {}
            _ => self.show("+"),
        }
        match (part, run) {
            (Part::Count, [byte, ..]) => {
                self.show_digits(&[*byte]);
                self.show_number("*", run.len() as u64);
            }
            _ => self.show_digits(run),
        }
        part
    }

    /// Shows a text in quotes after these words, if it is short and of letters, digits and signs alone; else its bytes.
    pub fn show_text(&mut self, words: &str, text: &[u8]) {
        if text.len() > LONGEST_TEXT || !text.iter().all(|byte| is_plain(*byte)) {
            return self.show_bytes(words, text);
        }
        self.show_quoted(words, text);
    }

    fn show_character(&mut self, character: char) {
        let outcome = self.shown.push(character);
        self.need(outcome);
    }

    /// Shows a text in quotes after these words.
    pub fn show_quoted(&mut self, words: &str, text: &[u8]) {
        self.show(words);
        self.show("\"");
        self.show_characters(text);
        self.show("\"");
    }

    /// Shows a text, with its line feeds and carriage returns as they are written in a row.
    pub fn show_characters(&mut self, text: &[u8]) {
        for byte in text {
            match byte {
                b'\n' => self.show("\\n"),
                b'\r' => self.show("\\r"),
                _ => self.show_character(char::from(*byte)),
            }
        }
    }
}

/// What stands after a backslash in a row, and what it stands for.
const ESCAPES: [(&str, &str); 6] = [
    ("n", "\n"),
    ("r", "\r"),
    ("t", "\t"),
    ("s", " "),
    ("x1F", "\x1F"),
    ("x7F", "\x7F"),
];

/// So many equal bytes in a row are shown as one and a count.
const LONG_RUN: usize = 8;

/// A longer text is shown by its bytes.
const LONGEST_TEXT: usize = 20;

/// What stands last among the bytes that are shown.
#[derive(Clone, Copy)]
enum Part {
    Nothing,
    Digits,
    Count,
}

fn is_plain(byte: u8) -> bool {
    byte > b' ' && byte < 0x7F && byte != b'"'
}
