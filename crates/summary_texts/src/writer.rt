//! A writer: it takes the lexemes of a text in order, and writes the text with other summaries.
ghost use Rattle.std.specs.Prelude.{◌≡◌, ◌++◌, OnOk};
ghost use Rattle.summary_texts.specs.Written.{comment_behind};

use crate::words::{begins_summary, is_brace, is_comment, is_line_comment, is_task};
use std::alloc::Global;
use twe_base::{Bytes, Memory};

/// Where a writer is, between two lexemes.
#[derive(Clone, Copy, Debug, PartialEq, Eq)]
pub(crate) enum Stage {
    /// Outside summaries. The flag is whether the word `task` stands before the next one.
    Around(bool),
    /// In a summary that stays.
    Staying,
    /// In a summary in the place of which another was written, or in what lies between it and the `{`.
    Replaced,
}

/// A writer.
#[derive(Debug, Drop)]
pub(crate) struct Writer {
    /// What was written.
    pub(crate) out: Bytes,
    /// Where it is.
    pub(crate) stage: Stage,
    /// The blanks and comments after the last token of a summary that is replaced.
    pub(crate) gap: Bytes,
    /// The comments among them, as they stand behind the new summary.
    pub(crate) comments: Bytes,
    /// For how many methods it is settled what is written.
    pub(crate) used: usize,
}

impl Writer {
    ghost use Rattle.std.specs.Prelude.{◌≡◌, IfOk, OnOk, IsTrue, slice_get};
    ghost use Rattle.twe_lexer.specs.Places.{is_gap};
    ghost use Rattle.summary_texts.specs.declared.writer.Stage.TheVariants as stages;
    ghost use Rattle.summary_texts.specs.inner.Steps.{after_around, after_first, after_gap, after_lexeme, after_replaced, after_staying, after_token, at_start, whole, with_lexeme};

    /// Before the first lexeme.
    pub(crate) fn new(alloc: Global) -> Self
        ensures { result ≡ at_start }
    {
        Writer {
            out: Bytes::new(alloc),
            stage: Stage::Around(false),
            gap: Bytes::new(alloc),
            comments: Bytes::new(alloc),
            used: 0,
        }
    }

    /// Takes the next lexeme. `gap` is whether it is a blank or a comment.
    pub(crate) fn take(
        &mut self,
        alloc: Global,
        news: &[Option<Bytes>],
        lexeme: &[u8],
        gap: bool,
    ) -> Result<(), Memory>
        requires { gap ≡ is_gap lexeme.now }
        ensures { OnOk result (self.new ≡ after_lexeme news.now self.old lexeme.now) }
    {
        match self.stage {
            Stage::Around(in_task) => self.take_around(news, in_task, lexeme),
            Stage::Staying => self.take_staying(lexeme),
            Stage::Replaced => self.take_replaced(alloc, lexeme, gap),
        }
    }

    /// Writes a lexeme that stays, and goes on.
    fn stay(&mut self, stage: Stage, lexeme: &[u8]) -> Result<(), Memory>
        ensures { OnOk result (self.new ≡ with_lexeme self.old stage lexeme.now) }
    {
        self.stage = stage;
        self.out.push_all(lexeme)
    }

    /// Takes a lexeme outside summaries.
    fn take_around(
        &mut self,
        news: &[Option<Bytes>],
        in_task: bool,
        lexeme: &[u8],
    ) -> Result<(), Memory>
        ensures { OnOk result (self.new ≡ after_around news.now in_task self.old lexeme.now) }
    {
        if !begins_summary(lexeme) {
            return self.stay(Stage::Around(is_task(lexeme) || in_task), lexeme);
        }
        if in_task {
            return self.stay(Stage::Staying, lexeme);
        }
        self.take_first(news, lexeme)
    }

    /// Takes the first word of the summary of a method.
    fn take_first(&mut self, news: &[Option<Bytes>], lexeme: &[u8]) -> Result<(), Memory>
        ensures { OnOk result (self.new ≡ after_first (slice_get news.now self.old.used) self.old lexeme.now) }
    {
        let Some(new) = news.get(self.used) else {
            return self.stay(Stage::Staying, lexeme);
        };
        self.used += 1;
        match new {
            None => self.stay(Stage::Staying, lexeme),
            Some(summary) => self.stay(Stage::Replaced, summary.as_slice()),
        }
    }

    /// Takes a lexeme in a summary that stays.
    fn take_staying(&mut self, lexeme: &[u8]) -> Result<(), Memory>
        ensures { OnOk result (self.new ≡ after_staying self.old lexeme.now) }
    {
        if is_brace(lexeme) {
            self.stay(Stage::Around(false), lexeme)
        } else {
            self.stay(Stage::Staying, lexeme)
        }
    }

    /// Takes a lexeme in or after a summary that was replaced.
    fn take_replaced(&mut self, alloc: Global, lexeme: &[u8], gap: bool) -> Result<(), Memory>
        requires stage { self.old.stage ≡ stages.Replaced }
        requires token { gap ≡ is_gap lexeme.now }
        ensures { OnOk result (self.new ≡ after_replaced self.old lexeme.now) }
    {
        if gap {
            self.take_gap(lexeme)
        } else {
            self.take_token(alloc, lexeme)
        }
    }

    /// Takes a blank or a comment in or after a summary that was replaced.
    fn take_gap(&mut self, lexeme: &[u8]) -> Result<(), Memory>
        requires stage { self.old.stage ≡ stages.Replaced }
        requires token { IsTrue (is_gap lexeme.now) }
        ensures { OnOk result (self.new ≡ after_gap self.old lexeme.now) }
    {
        self.gap.push_all(lexeme)?;
        if is_comment(lexeme) {
            push_behind(&mut self.comments, lexeme)?;
        }
        Ok(())
    }

    /// Takes a token in a summary that was replaced, or the `{` after it.
    fn take_token(&mut self, alloc: Global, lexeme: &[u8]) -> Result<(), Memory>
        requires { self.old.stage ≡ stages.Replaced }
        ensures { OnOk result (self.new ≡ after_token self.old lexeme.now) }
    {
        if is_brace(lexeme) {
            self.out.push_all(self.gap.as_slice())?;
            self.out.push_all(lexeme)?;
            self.stage = Stage::Around(false);
        } else {
            self.out.push_all(self.comments.as_slice())?;
        }
        self.gap = Bytes::new(alloc);
        self.comments = Bytes::new(alloc);
        Ok(())
    }

    /// The text that was written.
    pub(crate) fn finish(self) -> Result<Bytes, Memory>
        ensures { IfOk result (λ text. text ≡ whole self) }
    {
        let Writer {
            mut out,
            gap,
            stage: _,
            comments: _,
            used: _,
        } = self;
        out.push_all(gap.as_slice())?;
        Ok(out)
    }
}

/// Writes a comment behind a summary: a space before it, and the end of its line after it if it ends there.
fn push_behind(text: &mut Bytes, comment: &[u8]) -> Result<(), Memory>
    ensures { OnOk result (text.new ≡ text.old ++ comment_behind comment.now) }
{
    text.push(b' ')?;
    text.push_all(comment)?;
    if is_line_comment(comment) {
        text.push(b'\n')?;
    }
    Ok(())
}
