//! The names of the queries.
ghost use Rattle.std.specs.Prelude.{◌≡◌, ◌≤◌, length};
ghost use Rattle.query_rules.specs.Verbs.{verb_named, verb_word, arity, cells_in, query_of};

use crate::Query;

/// What a query begins with. Its numbers follow: the cells first, then the others.
#[derive(Clone, Copy, Debug, PartialEq, Eq)]
pub enum Verb {
    Get,
    Len,
    Put,
    Del,
    Add,
    Cas,
    PutLen,
    Move,
    Both,
    TryGet,
    TryPut,
    GetBy,
    PutBy,
    Give,
    Take,
    Audit,
}

impl Verb {
    /// The verb of this name.
    pub fn named(word: &[u8]) -> Option<Verb>
        ensures { result ≡ verb_named word.now }
    {
        if word == b"get".as_slice() {
            Some(Verb::Get)
        } else if word == b"len".as_slice() {
            Some(Verb::Len)
        } else if word == b"put".as_slice() {
            Some(Verb::Put)
        } else if word == b"del".as_slice() {
            Some(Verb::Del)
        } else if word == b"add".as_slice() {
            Some(Verb::Add)
        } else if word == b"cas".as_slice() {
            Some(Verb::Cas)
        } else if word == b"putlen".as_slice() {
            Some(Verb::PutLen)
        } else if word == b"move".as_slice() {
            Some(Verb::Move)
        } else if word == b"both".as_slice() {
            Some(Verb::Both)
        } else if word == b"tryget".as_slice() {
            Some(Verb::TryGet)
        } else if word == b"tryput".as_slice() {
            Some(Verb::TryPut)
        } else if word == b"getby".as_slice() {
            Some(Verb::GetBy)
        } else if word == b"putby".as_slice() {
            Some(Verb::PutBy)
        } else if word == b"give".as_slice() {
            Some(Verb::Give)
        } else if word == b"take".as_slice() {
            Some(Verb::Take)
        } else if word == b"audit".as_slice() {
            Some(Verb::Audit)
        } else {
            None
        }
    }

    /// Its name.
    pub fn word(self) -> &'static [u8]
        ensures { result.now ≡ verb_word self }
    {
        match self {
            Verb::Get => b"get",
            Verb::Len => b"len",
            Verb::Put => b"put",
            Verb::Del => b"del",
            Verb::Add => b"add",
            Verb::Cas => b"cas",
            Verb::PutLen => b"putlen",
            Verb::Move => b"move",
            Verb::Both => b"both",
            Verb::TryGet => b"tryget",
            Verb::TryPut => b"tryput",
            Verb::GetBy => b"getby",
            Verb::PutBy => b"putby",
            Verb::Give => b"give",
            Verb::Take => b"take",
            Verb::Audit => b"audit",
        }
    }

    /// How many numbers it takes.
    pub fn arity(self) -> usize
        ensures value { result ≡ arity self }
        ensures bound { result ≤ 4 }
    {
        match self {
            Verb::Audit => 0,
            Verb::Len => 1,
            Verb::Get | Verb::Del | Verb::TryGet | Verb::Give | Verb::Take => 2,
            Verb::Put | Verb::Add | Verb::PutLen | Verb::Both | Verb::TryPut | Verb::GetBy => 3,
            Verb::Cas | Verb::Move | Verb::PutBy => 4,
        }
    }

    /// How many of them, at the front, are cells.
    pub fn cells(self) -> usize
        ensures value { result ≡ cells_in self }
        ensures among { result ≤ arity self }
    {
        match self {
            Verb::Give | Verb::Take | Verb::Audit => 0,
            Verb::Move | Verb::Both => 2,
            _ => 1,
        }
    }

    /// The query with these numbers.
    pub fn query(self, numbers: &[u64]) -> Query
        requires { length numbers.now ≡ arity self }
        ensures { result ≡ query_of self numbers.now }
    {
        match self {
            Verb::Get => Query::Get {
                cell: numbers[0],
                key: numbers[1],
            },
            Verb::Len => Query::Len { cell: numbers[0] },
            Verb::Put => Query::Put {
                cell: numbers[0],
                key: numbers[1],
                value: numbers[2],
            },
            Verb::Del => Query::Del {
                cell: numbers[0],
                key: numbers[1],
            },
            Verb::Add => Query::Add {
                cell: numbers[0],
                key: numbers[1],
                delta: numbers[2],
            },
            Verb::Cas => Query::Cas {
                cell: numbers[0],
                key: numbers[1],
                old: numbers[2],
                new: numbers[3],
            },
            Verb::PutLen => Query::PutLen {
                cell: numbers[0],
                key: numbers[1],
                value: numbers[2],
            },
            Verb::Move => Query::Move {
                from: numbers[0],
                to: numbers[1],
                key: numbers[2],
                n: numbers[3],
            },
            Verb::Both => Query::Both {
                first: numbers[0],
                second: numbers[1],
                key: numbers[2],
            },
            Verb::TryGet => Query::TryGet {
                cell: numbers[0],
                key: numbers[1],
            },
            Verb::TryPut => Query::TryPut {
                cell: numbers[0],
                key: numbers[1],
                value: numbers[2],
            },
            Verb::GetBy => Query::GetBy {
                cell: numbers[0],
                key: numbers[1],
                deadline: numbers[2],
            },
            Verb::PutBy => Query::PutBy {
                cell: numbers[0],
                key: numbers[1],
                value: numbers[2],
                deadline: numbers[3],
            },
            Verb::Give => Query::Give {
                key: numbers[0],
                n: numbers[1],
            },
            Verb::Take => Query::Take {
                key: numbers[0],
                n: numbers[1],
            },
            Verb::Audit => Query::Audit,
        }
    }
}
