// Answers as they are told: in one line, with no line end.
use rules::Summary;
use std::fmt;
use words::Refusal;

// `ok` and what was answered, or the refusal.
#[derive(Drop)]
pub struct Told<T>(pub Result<T, Refusal>);

impl<T: fmt::Display> fmt::Display for Told<T> {
    fn fmt<W: fmt::Write>(&self, f: &mut fmt::Formatter<W>) -> fmt::Result {
        match &self.0 {
            Ok(answer) => write!(f, "ok {answer}"),
            Err(refusal) => write!(f, "{refusal}"),
        }
    }
}

// All that is known of an accepted shard.
#[derive(Drop)]
pub struct Figures(pub Summary);

impl fmt::Display for Figures {
    fn fmt<W: fmt::Write>(&self, f: &mut fmt::Formatter<W>) -> fmt::Result {
        let Figures(summary) = self;
        let totals = summary.totals;
        let footer = if summary.footer { "yes" } else { "no" };
        write!(
            f,
            "{} files {} segments {} xorbs {} chunks {} bytes {} footer {footer}",
            summary.length,
            totals.files,
            totals.segments,
            totals.xorbs,
            totals.chunks,
            totals.bytes,
        )
    }
}
