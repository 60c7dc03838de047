// The lines that a program prints of a log. Each question is asked, its answer printed and handed back; what can't be written is left out.
#![tactic(auto)]

ghost use Rattle.std.specs.Prelude.{◌≡◌, leb, length};
ghost use Rattle.format.specs.Refusals.{placed};
ghost use Rattle.format.specs.Walk.{judge};
ghost use Rattle.format.specs.Answers.{list_of, written, change_of, value_of};
ghost use Rattle.format.specs.Parts.{text_of};
ghost use Rattle.entry.specs.Answer.{changed_answer, valued_answer};
ghost use Rattle.walk.specs.Listing.{listed_answer};

use entry::{Cell, Change};
use events::Counts;
use format::Fault;
use output::Output;
use std::fmt;
use std::fmt::{Display, Formatter};
use value::Value;

mod output;

fn print_refusal(rt: &impl Print, fault: Fault) -> std::io::Result<()> {
    println!(rt; "refused {} at {}", fault.refusal.number(), fault.place)
}

fn print_checked(rt: &impl Print, answer: Result<Counts, Fault>) -> std::io::Result<()> {
    match answer {
        Ok(counts) => println!(rt; "accepted {} {}", counts.events, counts.changes),
        Err(fault) => print_refusal(rt, fault),
    }
}

// The numbers of a listing, five to a line.
fn print_lines(rt: &impl Print, out: &[u32], changes: usize) -> std::io::Result<()> {
    let (entries, _) = out.as_chunks::<5>();
    for [kind, event, map, before, after] in entries.iter().take(changes) {
        println!(rt; "{kind} {event} {map} {before} {after}")?;
    }
    Ok(())
}

// Listing, into a lent buffer: its answer.
pub fn print_list(log: &[u8], out: &mut [u32]) -> Result<Counts, Fault>
    ensures answer { placed result ≡ listed_answer (list_of (length out.old) (judge log.now)) }
    ensures buffer { out.new ≡ written (list_of (length out.old) (judge log.now)) out.old }
{
    let answer = binlog::list(log, out);
    let _ = print_checked(&Output, answer);
    answer
}

// What the program prints of a log: the answer to Listing, with room enough for every log of its size, and the listing.
fn print_log(log: &[u8]) {
    let mut out = [0u32; 327680];
    if let Ok(counts) = print_list(log, &mut out) {
        let _ = print_lines(&Output, &out, counts.changes);
    }
}

// Prints the answer to an input of up to 65,536 bytes, else only "too long", and says which.
pub fn print_input(input: &[u8]) -> bool
    ensures { result ≡ leb (length input.now) 65536 }
{
    let fits = input.len() <= 65_536;
    if fits {
        print_log(input);
    } else {
        let _ = Output.println("too long");
    }
    fits
}

// A part of the log, in hexadecimal after an x.
#[derive(Clone, Copy)]
struct Hex<'a>(&'a [u8]);

impl Display for Hex<'_> {
    fn fmt<W: fmt::Write>(&self, f: &mut Formatter<W>) -> fmt::Result {
        write!(f, "x")?;
        for byte in self.0 {
            write!(f, "{byte:02x}")?;
        }
        Ok(())
    }
}

fn print_changed(
    rt: &impl Print,
    log: &[u8],
    k: usize,
    answer: Result<Change, Fault>,
) -> std::io::Result<()> {
    match answer {
        Ok(c) => {
            let e = c.entry;
            print!(rt;
                "{} {} {} {} {} ",
                e.kind, e.event, e.map, e.before, e.after
            )?;
            let database = Hex(binlog::database_name(log, k));
            let table = Hex(binlog::table_name(log, k));
            println!(rt; "{} {} {database} {table}", c.table, c.columns)
        }
        Err(fault) => print_refusal(rt, fault),
    }
}

// Change k: its answer, and its names.
pub fn print_change(log: &[u8], k: usize) -> Result<Change, Fault>
    ensures { placed result ≡ changed_answer (change_of k (judge log.now)) }
{
    let answer = binlog::change(log, k);
    let _ = print_changed(&Output, log, k, answer);
    answer
}

// A stored value, and its bytes where it is a text.
#[derive(Clone, Copy)]
struct Stored<'a> {
    value: Value,
    part: &'a [u8],
}

impl Display for Stored<'_> {
    fn fmt<W: fmt::Write>(&self, f: &mut Formatter<W>) -> fmt::Result {
        match self.value {
            Value::Integer(n) => write!(f, "{n}"),
            Value::Float(_, bits) => write!(f, "{bits}"),
            Value::Double(_, bits) => write!(f, "{bits}"),
            Value::Date(d) => write!(f, "{} {} {}", d.year, d.month, d.day),
            Value::Year(y) => write!(f, "{y}"),
            Value::Timestamp(seconds, micros) => write!(f, "{seconds} {micros}"),
            Value::Datetime(x) => {
                let d = x.date;
                write!(f, "{} {} {} ", d.year, d.month, d.day)?;
                write!(f, "{} {} {} {}", x.hour, x.minute, x.second, x.micros)
            }
            Value::Time(t) => {
                let sign = if t.negative { '-' } else { '+' };
                write!(
                    f,
                    "{sign} {} {} {} {}",
                    t.hour, t.minute, t.second, t.micros
                )
            }
            Value::Text(p) => write!(f, "{} {} {}", p.place, p.size, Hex(self.part)),
        }
    }
}

fn print_valued(rt: &impl Print, answer: Result<Cell, Fault>, part: &[u8]) -> std::io::Result<()> {
    match answer {
        Ok(Cell::Absent) => rt.println("absent"),
        Ok(Cell::Null) => rt.println("null"),
        Ok(Cell::Stored(code, value)) => println!(rt; "{code} {}", Stored { value, part }),
        Err(fault) => print_refusal(rt, fault),
    }
}

// Value of change k, side and column: its answer, and its text.
pub fn print_value(log: &[u8], k: usize, side: usize, column: usize) -> Result<Cell, Fault>
    ensures { placed result ≡ valued_answer (text_of k side column (judge log.now)) (value_of k side column (judge log.now)) }
{
    let answer = binlog::value(log, k, side, column);
    let _ = print_valued(&Output, answer, binlog::text(log, k, side, column));
    answer
}
