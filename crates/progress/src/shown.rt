//! One line of a stream, as it stands there.
ghost use Rattle.std.specs.Prelude.{◌≡◌, ◌+◌, ◌<◌, ◌↔◌, ◌∷◌, ◌++◌, [], IfOk, IfSome, IsSome, IsTrue, None, OnOk, Ok, Some, false, length};
ghost use Rattle.std.specs.Io.KnownBytes.{Appends};
ghost use Rattle.std.specs.Time.{instant_nanos};
ghost use Rattle.progress.specs.Texts.{line_text, renewal};
ghost use Rattle.progress.specs.Times.{AllowMore, AreApart, IsDue, pause};

use crate::step::Step;
use http_server::Log;
use std::alloc::{AllocError, Global};
use std::io;
use std::io::Write;
use std::time::{Duration, Instant};

/// How many milliseconds a text stands before the next one is written, at least.
const PAUSE_MILLIS: u64 = 100;

/// A line of a stream that is written again and again, and what is to stand in it.
#[derive(Drop)]
pub(crate) struct Shown<W> {
    alloc: Global,
    to: W,
    /// From when on the next text may be written.
    next: Instant,
    /// What was told last.
    last: Option<Step>,
    /// How many bytes the text in the line has, with the carriage return before it; 0 where none stands there.
    width: usize,
    /// When which text was written, or was to be. It is a history that only clauses read.
    history: Log<Instant, Step>,
    ghost apart: { AreApart history.items },
    ghost next_is_apart: { AllowMore history.items (instant_nanos next) },
}

impl<W: Write + Drop> Shown<W> {
    /// A line in which nothing stands. The first text may be written after a pause from now on. There is none where the clock
    /// is near its end.
    pub(crate) fn new(alloc: Global, to: W, now: Instant) -> Option<Shown<W>>
        ensures { IfSome result (λ shown. (shown.to ≡ to) × (shown.width ≡ 0) × (shown.last ≡ None)
            × (instant_nanos shown.next ≡ instant_nanos now + pause)) }
    {
        Some(Shown {
            alloc,
            to,
            next: now.checked_add(Duration::from_millis(PAUSE_MILLIS))?,
            last: None,
            width: 0,
            history: Log::new(),
        })
    }

    /// Keeps what is told, and writes it if it is time for that. Gives whether it was written.
    pub(crate) fn tell(&mut self, now: Instant, step: Step) -> io::Result<bool>
        ensures last { self.new.last ≡ Some step }
        ensures early { (IsDue self.old.next now → ⊥) → (result ≡ Ok false) × (self.new.to ≡ self.old.to)
            × (self.new.next ≡ self.old.next) × (self.new.width ≡ self.old.width) × (self.new.history ≡ self.old.history) }
        ensures written { IsDue self.old.next now
            → IfOk result (λ written. IsTrue written × Appends (W.contents self.old.to) (W.contents self.new.to) (renewal self.old.width step)) }
        ensures width { IsDue self.old.next now → OnOk result (self.new.width ≡ length (line_text step)) }
        ensures history { IsDue self.old.next now → self.new.history.items ≡ self.old.history.items ++ (now, step) ∷ [] }
    {
        self.last = Some(step);
        let Some(next) = due(self.next, now) else {
            return Ok(false);
        };
        self.next = next;
        self.history = self.history.and(&now, &step);
        self.renew(step)?;
        Ok(true)
    }

    /// Ends the line, if anything stands in it, with what was told last.
    pub(crate) fn end(&mut self) -> io::Result<()>
        ensures begun { 0 < self.old.width → IfSome self.old.last (λ last. OnOk result
            (Appends (W.contents self.old.to) (W.contents self.new.to) (renewal self.old.width last ++ 10 ∷ []))) }
        ensures empty { self.old.width ≡ 0 → self.new ≡ self.old }
    {
        match self.last {
            Some(last) if self.width > 0 => {
                self.renew(last)?;
                self.to.write_all(b"\n")
            }
            _ => Ok(()),
        }
    }

    /// Writes a text over the one that stands in the line.
    fn renew(&mut self, step: Step) -> io::Result<()>
        ensures text { OnOk result (Appends (W.contents self.old.to) (W.contents self.new.to) (renewal self.old.width step)) }
        ensures same { (self.new.next ≡ self.old.next) × (self.new.last ≡ self.old.last) × (self.new.history ≡ self.old.history) }
        ensures width { OnOk result (self.new.width ≡ length (line_text step)) }
    {
        let mut text = format!(in self.alloc; "\r{step}")?.into_bytes();
        let width = text.len();
        text.resize(width.max(self.width), b' ')?;
        self.width = width;
        self.to.write_all(text.as_slice())?;
        self.to.flush()
    }
}

/// When the next text may be written after one that is written now, if that may be.
fn due(next: Instant, now: Instant) -> Option<Instant>
    ensures due { IsSome result ↔ IsDue next now }
    ensures later { IfSome result (λ later. instant_nanos later ≡ instant_nanos now + pause) }
{
    now.checked_duration_since(next)?;
    now.checked_add(Duration::from_millis(PAUSE_MILLIS))
}
