// Encodes and reads words and pages, one request a line, and answers each on a line.
#![tactic(auto)]

mod answer;
mod line;
mod request;

use answer::answer;
use line::Line;
use std::alloc::Global;
use std::io::{BufReader, BufWriter, Read, Write};

// Answers the line, or tells its number where it is no request.
fn answer_line<W: Write>(
    out: &mut W,
    heap: Global,
    line: &Line,
    number: u64,
) -> anyhow::Result<()> {
    match line.request() {
        Some(request) => answer(out, heap, &request),
        None => {
            writeln!(out, "? {number}")?;
            Ok(())
        }
    }
}

fn answer_all<R: Read + Drop, W: Write + Drop>(
    heap: Global,
    input: R,
    output: W,
) -> anyhow::Result<()> {
    let mut out = BufWriter::new(heap, output)?;
    let mut line = Line::new();
    let mut number = 1u64;
    for byte in BufReader::new(heap, input)?.bytes() {
        match byte? {
            b'\n' => {
                answer_line(&mut out, heap, &line, number)?;
                line.clear();
                number = number.saturating_add(1);
            }
            other => line.push(other),
        }
    }
    // The last line may lack its newline.
    if !line.is_empty() {
        answer_line(&mut out, heap, &line, number)?;
    }
    out.flush()?;
    Ok(())
}

fn main(rt: HostRuntime) -> anyhow::Result<()> {
    answer_all(rt.alloc(), rt.stdin(), rt.stdout())
}
