//! A sentence for a person.

ghost use Rattle.std.specs.Prelude.{◌≡◌, ◌↔◌, None};

use crate::status_line::details_of;
use crate::table::sentence_of;
use std::fmt;

/// A value behind a text, or another text where the value is not known.
#[derive(Clone, Copy, Debug, PartialEq, Eq)]
pub(crate) struct Part<'a> {
    pub(crate) before: &'static str,
    pub(crate) value: Option<&'a str>,
    pub(crate) otherwise: &'static str,
}

impl<'a> Part<'a> {
    /// A text without a value.
    pub(crate) fn plain(text: &'static str) -> Part<'a> {
        Part {
            before: "",
            value: None,
            otherwise: text,
        }
    }
}

impl<'a> fmt::Display for Part<'a> {
    fn fmt<W: fmt::Write>(&self, f: &mut fmt::Formatter<W>) -> fmt::Result {
        let before = self.before;
        match self.value {
            Some(value) => write!(f, "{before}{value}"),
            None => f.write_str(self.otherwise),
        }
    }
}

/// What happened to a command that was not done, and what to do.
#[derive(Clone, Copy, Debug, PartialEq, Eq)]
pub struct Sentence<'a> {
    pub(crate) subject: Part<'a>,
    pub(crate) happened: &'static str,
    pub(crate) more: Part<'a>,
    pub(crate) advice: &'static str,
}

impl<'a> Sentence<'a> {
    /// The sentence of a status, with the values of its line if that is the line that was said last, and whole. None for a command that
    /// was done.
    pub fn of(status: u8, last_line: &'a [u8]) -> Option<Sentence<'a>>
        ensures { (result ≡ None) ↔ (status ≡ 0) }
    {
        if status == 0 {
            return None;
        }
        Some(sentence_of(status, details_of(status, last_line)))
    }
}

impl<'a> fmt::Display for Sentence<'a> {
    fn fmt<W: fmt::Write>(&self, f: &mut fmt::Formatter<W>) -> fmt::Result {
        let Sentence {
            subject,
            happened,
            more,
            advice,
        } = self;
        write!(f, "{subject}{happened}{more}: {advice}")
    }
}
