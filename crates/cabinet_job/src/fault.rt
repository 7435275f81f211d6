// What can go wrong: with the command, with a file, or what the library refuses.
use std::error::Error;
use std::fmt;
use words::Refusal;

#[derive(Clone, Copy, Debug, PartialEq, Eq)]
pub enum Fault {
    Usage,
    NoRecords,
    NoDistances,
    ShortHeader,
    NoCabinet,
    Dims(Refusal),
    ShortQuery,
    Query(Refusal),
    ShortBlock(usize),
    Block(usize, Refusal),
    Longer,
    Floats,
    Lists(Refusal),
    Unread(u64),
    Distance(u64, Refusal),
    Below(u64),
}

// One line.
impl fmt::Display for Fault {
    fn fmt<W: fmt::Write>(&self, f: &mut fmt::Formatter<W>) -> fmt::Result {
        match self {
            Fault::Usage => write!(f, "usage: cabinet RECORDS DISTANCES [WANTED]"),
            Fault::NoRecords => write!(f, "records file: it can't be opened"),
            Fault::NoDistances => write!(f, "distances file: it can't be opened"),
            Fault::ShortHeader => write!(f, "records file: it ends inside the header"),
            Fault::NoCabinet => write!(f, "records file: it doesn't begin with LKCAB001"),
            Fault::Dims(why) => {
                let refused = Refused(*why);
                write!(f, "records file: the number of dims {refused}")
            }
            Fault::ShortQuery => write!(f, "records file: it ends inside the query's codes"),
            Fault::Query(why) => {
                let refused = Refused(*why);
                write!(f, "records file: the query {refused}")
            }
            Fault::ShortBlock(first) => {
                write!(
                    f,
                    "records file: the block from record {first} on is cut off"
                )
            }
            Fault::Block(first, why) => {
                let refused = Refused(*why);
                write!(
                    f,
                    "records file: the block from record {first} on {refused}"
                )
            }
            Fault::Longer => write!(f, "records file: it goes on after its last block"),
            Fault::Floats => write!(f, "distances file: it isn't one float for each record"),
            Fault::Lists(why) => {
                let refused = Refused(*why);
                write!(f, "the list of candidates {refused}")
            }
            Fault::Unread(of) => {
                write!(
                    f,
                    "distances file: the distance of record {of} can't be read"
                )
            }
            Fault::Distance(of, why) => {
                let refused = Refused(*why);
                write!(f, "distances file: the distance of record {of} {refused}")
            }
            Fault::Below(of) => {
                write!(
                    f,
                    "distances file: the distance of record {of} is below its lower bound"
                )
            }
        }
    }
}

impl Error for Fault {}

// A refusal with its number.
#[derive(Clone, Copy)]
struct Refused(Refusal);

impl fmt::Display for Refused {
    fn fmt<W: fmt::Write>(&self, f: &mut fmt::Formatter<W>) -> fmt::Result {
        let why = self.0;
        let number = u32::from(why);
        write!(f, "is refused: {number} {why}")
    }
}
