//! Whether two sessions have the same answers.

use abc_live::{Session, Title};

/// Whether they have the same titles.
fn have_titles(titles: &[Title], others: &[Title]) -> bool {
    if titles.len() != others.len() {
        return false;
    }
    for (title, other) in titles.iter().zip(others.iter()) {
        if title.number != other.number || title.text.as_slice() != other.text.as_slice() {
            return false;
        }
    }
    true
}

/// Whether they have the same files.
fn have_files(session: &Session, other: &Session) -> bool {
    if session.numbers() != other.numbers() {
        return false;
    }
    for number in session.numbers() {
        if session.output(*number) != other.output(*number) {
            return false;
        }
    }
    true
}

/// Whether they have the same lines.
fn have_lines(session: &Session, other: &Session) -> bool {
    let count = session.line_count();
    if count != other.line_count() {
        return false;
    }
    for number in 1..=count {
        if session.line(number) != other.line(number) {
            return false;
        }
    }
    true
}

/// Whether all their answers are the same.
pub fn are_alike(session: &Session, other: &Session) -> bool {
    have_lines(session, other)
        && have_files(session, other)
        && have_titles(session.titles(), other.titles())
        && session.faults() == other.faults()
}
