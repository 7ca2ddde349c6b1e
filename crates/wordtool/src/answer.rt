// The answers to requests.
use crate::request::{Command, Request, Setting};
use anyhow::Context;
use bch::settings::{Long, Worked};
use inner::code::InnerCode;
use pagecode::message::inner_data;
use position::code::Short;
use std::alloc::Global;
use std::io::Write;
use steps::explain::Steps;
use wordcode::page::{encode_page, read_page};
use wordcode::refusal::Refusal;
use wordcode::sizes::{data_bytes, message_bytes, page_bytes, word_bytes};
use wordcode::word::{Reading, encode, read};

// What a call answers about the bytes that it wrote: how a message was read, if it was.
type Outcome = Result<Option<Reading>, Refusal>;

// The bytes that a call makes of the request's bytes, with the distance of a message that was read, or the number of its refusal.
fn print_call<W: Write, F: FnOnce(&[u8], &mut [u8]) -> Outcome>(
    out: &mut W,
    heap: Global,
    request: &Request<'_>,
    size: usize,
    call: F,
) -> anyhow::Result<()>
    requires { F.IsAlwaysCallable call }
{
    let bytes = hex::decode(heap, request.digits)?;
    let mut made = vec![in heap; 0u8; size]?;
    match call(&bytes, &mut made) {
        Ok(reading) => {
            let digits = hex::encode_upper(heap, &made)?;
            write!(out, "{request} ok {digits}")?;
            if let Some(Reading { distance, over }) = reading {
                let suffix = if over { " over" } else { "" };
                write!(out, " {distance}{suffix}")?;
            }
            writeln!(out)?;
            Ok(())
        }
        Err(refusal) => print_refusal(out, request, refusal),
    }
}

fn print_refusal<W: Write>(
    out: &mut W,
    request: &Request<'_>,
    refusal: Refusal,
) -> anyhow::Result<()> {
    let number = u8::from(refusal);
    writeln!(out, "{request} no {number}")?;
    Ok(())
}

// The steps of encode for a message, and its codeword.
fn explain<W: Write, C: InnerCode>(
    out: &mut W,
    heap: Global,
    request: &Request<'_>,
) -> anyhow::Result<()> {
    let message = hex::decode(heap, request.digits)?;
    let mut word = vec![in heap; 0u8; word_bytes::<C>()]?;
    if let Err(refusal) = encode::<C>(&message, &mut word) {
        return print_refusal(out, request, refusal);
    }
    let inner_bits = C::DATA.saturating_add(C::CHECKS);
    let mut v = vec![in heap; 0u8; word.len()]?;
    inner_data(&message, C::DATA, &mut v)?;
    C::complete(&mut v)?;
    let steps = Steps::with_v(C::FIELD, &message, &v, C::DATA, inner_bits).context(
        "the message is no run of pairs of groups",
    )?;
    let digits = hex::encode_upper(heap, &word)?;
    writeln!(out, "{steps}\ncodeword {digits}")?;
    Ok(())
}

// The commands are the tool's language, so each is named here with its call.
fn answer_with<W: Write, C: InnerCode>(
    out: &mut W,
    heap: Global,
    request: &Request<'_>,
) -> anyhow::Result<()> {
    match request.command {
        Command::Encode => print_call(
            out,
            heap,
            request,
            word_bytes::<C>(),
            |bytes, word| encode::<C>(bytes, word).map(|()| None),
        ),
        Command::Read => print_call(
            out,
            heap,
            request,
            message_bytes::<C>(),
            |bytes, message| read::<C>(bytes, message).map(Some),
        ),
        Command::Page => print_call(
            out,
            heap,
            request,
            page_bytes::<C>(),
            |bytes, page| encode_page::<C>(bytes, page).map(|()| None),
        ),
        Command::Data => print_call(
            out,
            heap,
            request,
            data_bytes::<C>(),
            |bytes, data| read_page::<C>(bytes, data).map(|_| None),
        ),
        Command::Explain => explain::<W, C>(out, heap, request),
    }
}

// A setting is a type, so each is named here.
pub fn answer<W: Write>(out: &mut W, heap: Global, request: &Request<'_>) -> anyhow::Result<()> {
    match request.setting {
        Setting::Worked => answer_with::<W, Worked>(out, heap, request),
        Setting::Short => answer_with::<W, Short>(out, heap, request),
        Setting::Long => answer_with::<W, Long>(out, heap, request),
    }
}
