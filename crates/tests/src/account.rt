//! A plain account of the visible state of a publisher on two tunes, by their versions.

/// A version of a tune: none, with `C`, with `D`; and of a file that is unknown.
#[derive(Clone, Copy, PartialEq)]
pub enum Version {
    Absent,
    WithC,
    WithD,
    Unknown,
}

/// The account of one number: what the book has, what the directory holds, and what a job carries.
#[derive(Clone, Copy)]
pub struct NumberAccount {
    pub book: Version,
    stored: Version,
    carried: Option<Version>,
}

impl NumberAccount {
    pub fn is_pending(self) -> bool {
        self.stored != self.book
    }

    fn is_wanted(self) -> bool {
        self.is_pending() && self.carried.is_none()
    }

    fn is_settled(self) -> bool {
        !self.is_pending() && self.carried.is_none()
    }

    fn edit(self) -> NumberAccount {
        let book = match self.book {
            Version::Absent => Version::WithC,
            Version::WithC => Version::WithD,
            _ => Version::Absent,
        };
        NumberAccount { book, ..self }
    }

    fn take(self) -> NumberAccount {
        NumberAccount {
            carried: Some(self.book),
            ..self
        }
    }

    fn end(self, done: bool) -> NumberAccount {
        let stored = match self.carried {
            Some(carried) if done => carried,
            _ => Version::Unknown,
        };
        NumberAccount {
            stored,
            carried: None,
            ..self
        }
    }
}

/// A tune that is there, and nothing is written.
const NEW: NumberAccount = NumberAccount {
    book: Version::WithC,
    stored: Version::Absent,
    carried: None,
};

/// The account of both numbers.
#[derive(Clone, Copy)]
pub struct Account {
    pub first: NumberAccount,
    pub second: NumberAccount,
}

/// Both tunes are there, and nothing is written.
pub const OPENING: Account = Account {
    first: NEW,
    second: NEW,
};

impl Account {
    /// After an edit of a tune, which goes from none to `C` to `D` to none.
    pub fn edit(self, number: u32) -> Account {
        if number == 1 {
            let first = self.first.edit();
            Account { first, ..self }
        } else {
            let second = self.second.edit();
            Account { second, ..self }
        }
    }

    /// After the end of a number's job.
    pub fn end(self, number: u32, done: bool) -> Account {
        if number == 1 {
            let first = self.first.end(done);
            Account { first, ..self }
        } else {
            let second = self.second.end(done);
            Account { second, ..self }
        }
    }

    /// The number of the next job and what it carries, and the account after it.
    pub fn take(self) -> (Option<(u32, Version)>, Account) {
        if self.first.is_wanted() {
            let first = self.first.take();
            return (Some((1, first.book)), Account { first, ..self });
        }
        if self.second.is_wanted() {
            let second = self.second.take();
            return (Some((2, second.book)), Account { second, ..self });
        }
        (None, self)
    }

    pub fn is_settled(self) -> bool {
        self.first.is_settled() && self.second.is_settled()
    }
}
