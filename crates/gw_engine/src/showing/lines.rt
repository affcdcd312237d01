//! The lines that a message is shown by. A line with more than one number is written by a function of its
//! own, which is proved apart from what its parts are made of.
ghost use Rattle.std.specs.Prelude.{◌≡◌, flat_map, string_bytes, IfOk};
ghost use Rattle.gw_console.specs.Digits.{hexadecimal, text_of};
ghost use Rattle.gw_engine.specs.Showing.{attribute_text, attribute_words, body_text, data_line, deletion_line, end_of, exchange_line, flags_text, header_text, ike_line, message_text, notice_line, numbered_line, octets_line, payload_text, payloads_text, proposal_text, proposal_words, range_text, sealed_line, selector_text, selector_words, spis_text, start_of, transform_text};

use base::{Address, Range, Selector};
use gw_console::{address_text, hex_text};
use std::alloc::{AllocError, Global};
use wire::numbers::HEADER_LENGTH;
use wire::{Attribute, Flags, Header, Message, Payload, Proposal, Transform};

/// All lines of a message of so many octets.
pub fn of_message(alloc: Global, message: &Message, length: usize) -> Result<String, AllocError>
    ensures { IfOk result (λ text. string_bytes text ≡ message_text message.now length) }
{
    let mut lines = of_header(alloc, &message.header, length)?;
    let payloads = of_payloads(alloc, message.payloads.as_slice())?;
    lines.push_str(payloads.as_str())?;
    Ok(lines)
}

fn of_header(alloc: Global, header: &Header, length: usize) -> Result<String, AllocError>
    ensures { IfOk result (λ text. string_bytes text ≡ header_text header.now length) }
{
    let Header {
        spi_i,
        spi_r,
        minor: _,
        exchange,
        flags,
        id,
    } = *header;
    let spi_i = of_spi(alloc, spi_i)?;
    let spi_r = of_spi(alloc, spi_r)?;
    let flags = of_flags(flags);
    let mut lines = ike_line(alloc, spi_i.as_str(), spi_r.as_str())?;
    let exchange_line = exchange_line(alloc, exchange, flags, id, length)?;
    lines.push_str(exchange_line.as_str())?;
    Ok(lines)
}

fn ike_line(alloc: Global, spi_i: &str, spi_r: &str) -> Result<String, AllocError>
    ensures { IfOk result (λ text. string_bytes text ≡ ike_line spi_i.now spi_r.now) }
{
    Ok(format!(in alloc; "ike {spi_i} {spi_r}\n")?)
}

fn exchange_line(
    alloc: Global,
    exchange: u8,
    flags: &str,
    id: u32,
    length: usize,
) -> Result<String, AllocError>
    ensures { IfOk result (λ text. string_bytes text ≡
        exchange_line exchange flags.now id length) }
{
    Ok(format!(in alloc; "exchange {exchange} flags {flags} id {id} length {length}\n")?)
}

// An SPI of an IKE SA.
fn of_spi(alloc: Global, spi: u64) -> Result<String, AllocError>
    ensures { IfOk result (λ text. string_bytes text ≡ hexadecimal 16 spi) }
{
    Ok(format!(in alloc; "{spi:016x}")?)
}

// The letters of the flags that are set, `-` where none is.
fn of_flags(flags: Flags) -> &'static str
    ensures { result.now ≡ flags_text flags }
{
    match (flags.initiator, flags.version, flags.response) {
        (false, false, false) => "-",
        (true, false, false) => "I",
        (false, true, false) => "V",
        (true, true, false) => "IV",
        (false, false, true) => "R",
        (true, false, true) => "IR",
        (false, true, true) => "VR",
        (true, true, true) => "IVR",
    }
}

// The lines of all payloads of a message.
fn of_payloads(alloc: Global, payloads: &[Payload]) -> Result<String, AllocError>
    ensures { IfOk result (λ text. string_bytes text ≡
        payloads_text HEADER_LENGTH payloads.now) }
{
    let mut lines = String::new(alloc);
    let mut offset = HEADER_LENGTH;
    for payload in payloads {
        lines.push_str(of_payload(alloc, payload, offset)?.as_str())?;
        offset = offset.saturating_add(payload.size());
    }
    Ok(lines)
}

// The lines of a payload that begins at the offset.
fn of_payload(alloc: Global, payload: &Payload, offset: usize) -> Result<String, AllocError>
    ensures { IfOk result (λ text. string_bytes text ≡ payload_text offset payload.now) }
{
    let (kind, size) = (payload.number(), payload.size());
    let body = of_body(alloc, payload)?;
    Ok(format!(in alloc; "payload {kind} at {offset} length {size}\n{body}")?)
}

// The lines below a payload's own line.
fn of_body(alloc: Global, payload: &Payload) -> Result<String, AllocError>
    ensures { IfOk result (λ text. string_bytes text ≡ body_text payload.now) }
{
    match payload {
        Payload::Sa(proposals) => of_proposals(alloc, proposals.as_slice()),
        Payload::Ke { group, data } => data_line(alloc, "group", *group, data.as_slice()),
        Payload::IdI { kind, data } | Payload::IdR { kind, data } => data_line(
            alloc,
            "id",
            u16::from(*kind),
            data.as_slice(),
        ),
        Payload::Auth { method, data } => data_line(
            alloc,
            "method",
            u16::from(*method),
            data.as_slice(),
        ),
        Payload::Nonce(data) => octets_line(alloc, "nonce", data.as_slice()),
        Payload::Notify {
            protocol,
            spi,
            kind,
            data,
        } => of_notice(alloc, *protocol, spi.as_slice(), *kind, data.as_slice()),
        Payload::Delete { protocol, spis } => of_delete(alloc, *protocol, spis.as_slice()),
        Payload::TsI(selectors) | Payload::TsR(selectors) => of_selectors(
            alloc,
            selectors.as_slice(),
        ),
        Payload::Sealed { first, body } => of_sealed(alloc, *first, body.len()),
        Payload::Skipped { kind: _, data }
        | Payload::Unknown {
            kind: _,
            critical: _,
            data,
        } => octets_line(alloc, "data", data.as_slice()),
    }
}

// The line of a payload of data alone, under its name.
fn octets_line(alloc: Global, name: &str, data: &[u8]) -> Result<String, AllocError>
    ensures { IfOk result (λ text. string_bytes text ≡ octets_line name.now data.now) }
{
    let data = hex_text(alloc, data)?;
    Ok(format!(in alloc; "  {name} {data}\n")?)
}

// The line of a payload of a number and data, under the number's name.
fn data_line(alloc: Global, name: &str, number: u16, data: &[u8]) -> Result<String, AllocError>
    ensures { IfOk result (λ text. string_bytes text ≡ data_line name.now number data.now) }
{
    let data = hex_text(alloc, data)?;
    let rest = format!(in alloc; "data {data}")?;
    numbered_line(alloc, name, number, rest.as_str())
}

// A line of a number under its name, and what stands behind it.
fn numbered_line(alloc: Global, name: &str, number: u16, rest: &str) -> Result<String, AllocError>
    ensures { IfOk result (λ text. string_bytes text ≡ numbered_line name.now number rest.now) }
{
    Ok(format!(in alloc; "  {name} {number} {rest}\n")?)
}

fn of_notice(
    alloc: Global,
    protocol: u8,
    spi: &[u8],
    kind: u16,
    data: &[u8],
) -> Result<String, AllocError>
    ensures { IfOk result (λ text. string_bytes text ≡
        notice_line protocol (text_of spi.now) kind (text_of data.now)) }
{
    let spi = hex_text(alloc, spi)?;
    let data = hex_text(alloc, data)?;
    notice_line(alloc, protocol, spi.as_str(), kind, data.as_str())
}

fn notice_line(
    alloc: Global,
    protocol: u8,
    spi: &str,
    kind: u16,
    data: &str,
) -> Result<String, AllocError>
    ensures { IfOk result (λ text. string_bytes text ≡
        notice_line protocol spi.now kind data.now) }
{
    Ok(format!(in alloc; "  notify {kind} protocol {protocol} spi {spi} data {data}\n")?)
}

fn of_delete(alloc: Global, protocol: u8, spis: &[u32]) -> Result<String, AllocError>
    ensures { IfOk result (λ text. string_bytes text ≡ deletion_line protocol spis.now) }
{
    let spis = of_spis(alloc, spis)?;
    let rest = format!(in alloc; "spis{spis}")?;
    numbered_line(alloc, "delete protocol", u16::from(protocol), rest.as_str())
}

fn of_sealed(alloc: Global, first: u8, octets: usize) -> Result<String, AllocError>
    ensures { IfOk result (λ text. string_bytes text ≡ sealed_line first octets) }
{
    let rest = format!(in alloc; "octets {octets}")?;
    numbered_line(alloc, "sealed first", u16::from(first), rest.as_str())
}

fn of_proposals(alloc: Global, proposals: &[Proposal]) -> Result<String, AllocError>
    ensures { IfOk result (λ text. string_bytes text ≡ flat_map proposal_text proposals.now) }
{
    let mut lines = String::new(alloc);
    for proposal in proposals {
        lines.push_str(of_proposal(alloc, proposal)?.as_str())?;
    }
    Ok(lines)
}

fn of_proposal(alloc: Global, proposal: &Proposal) -> Result<String, AllocError>
    ensures { IfOk result (λ text. string_bytes text ≡ proposal_text proposal.now) }
{
    let Proposal {
        number,
        protocol,
        spi,
        transforms,
    } = proposal;
    let spi = hex_text(alloc, spi.as_slice())?;
    let rest = proposal_words(alloc, *protocol, spi.as_str(), transforms.len())?;
    let mut lines = numbered_line(alloc, "proposal", u16::from(*number), rest.as_str())?;
    let transforms = of_transforms(alloc, transforms.as_slice())?;
    lines.push_str(transforms.as_str())?;
    Ok(lines)
}

// What stands behind a proposal's number.
fn proposal_words(
    alloc: Global,
    protocol: u8,
    spi: &str,
    count: usize,
) -> Result<String, AllocError>
    ensures { IfOk result (λ text. string_bytes text ≡ proposal_words protocol spi.now count) }
{
    Ok(format!(in alloc; "protocol {protocol} spi {spi} transforms {count}")?)
}

fn of_transforms(alloc: Global, transforms: &[Transform]) -> Result<String, AllocError>
    ensures { IfOk result (λ text. string_bytes text ≡ flat_map transform_text transforms.now) }
{
    let mut lines = String::new(alloc);
    for transform in transforms {
        lines.push_str(of_transform(alloc, transform)?.as_str())?;
    }
    Ok(lines)
}

fn of_transform(alloc: Global, transform: &Transform) -> Result<String, AllocError>
    ensures { IfOk result (λ text. string_bytes text ≡ transform_text transform.now) }
{
    let Transform {
        kind,
        id,
        attributes,
    } = transform;
    let attributes = of_attributes(alloc, attributes.as_slice())?;
    let rest = format!(in alloc; "{id}{attributes}")?;
    numbered_line(alloc, "  transform", u16::from(*kind), rest.as_str())
}

// What stands behind a transform's type and ID.
fn of_attributes(alloc: Global, attributes: &[Attribute]) -> Result<String, AllocError>
    ensures { IfOk result (λ text. string_bytes text ≡ flat_map attribute_text attributes.now) }
{
    let mut text = String::new(alloc);
    for attribute in attributes {
        text.push_str(of_attribute(alloc, attribute)?.as_str())?;
    }
    Ok(text)
}

fn of_attribute(alloc: Global, attribute: &Attribute) -> Result<String, AllocError>
    ensures { IfOk result (λ text. string_bytes text ≡ attribute_text attribute.now) }
{
    match attribute {
        Attribute::Short { kind, value } => {
            let value = format!(in alloc; "{value}")?;
            attribute_words(alloc, *kind, value.as_str())
        }
        Attribute::Long { kind, value } => {
            let value = hex_text(alloc, value.as_slice())?;
            attribute_words(alloc, *kind, value.as_str())
        }
    }
}

fn attribute_words(alloc: Global, kind: u16, value: &str) -> Result<String, AllocError>
    ensures { IfOk result (λ text. string_bytes text ≡ attribute_words kind value.now) }
{
    Ok(format!(in alloc; " attr {kind} {value}")?)
}

// The SPIs of a deletion, each with a blank before it.
fn of_spis(alloc: Global, spis: &[u32]) -> Result<String, AllocError>
    ensures { IfOk result (λ text. string_bytes text ≡ spis_text spis.now) }
{
    if spis.is_empty() {
        return String::from_str(alloc, " -");
    }
    let mut text = String::new(alloc);
    for spi in spis {
        write!(text, " {spi:08x}")?;
    }
    Ok(text)
}

fn of_selectors(alloc: Global, selectors: &[Selector]) -> Result<String, AllocError>
    ensures { IfOk result (λ text. string_bytes text ≡ flat_map selector_text selectors.now) }
{
    let mut lines = String::new(alloc);
    for selector in selectors {
        lines.push_str(of_selector(alloc, selector)?.as_str())?;
    }
    Ok(lines)
}

fn of_selector(alloc: Global, selector: &Selector) -> Result<String, AllocError>
    ensures { IfOk result (λ text. string_bytes text ≡ selector_text selector.now) }
{
    let Selector {
        protocol,
        start_port,
        end_port,
        addresses,
    } = *selector;
    let addresses = of_range(alloc, addresses)?;
    let rest = selector_words(alloc, start_port, end_port, addresses.as_str())?;
    numbered_line(
        alloc,
        "selector protocol",
        u16::from(protocol),
        rest.as_str(),
    )
}

// What stands behind a selector's protocol.
fn selector_words(
    alloc: Global,
    start_port: u16,
    end_port: u16,
    addresses: &str,
) -> Result<String, AllocError>
    ensures { IfOk result (λ text. string_bytes text ≡
        selector_words start_port end_port addresses.now) }
{
    Ok(format!(in alloc; "ports {start_port}-{end_port} {addresses}")?)
}

fn of_range(alloc: Global, addresses: Range) -> Result<String, AllocError>
    ensures { IfOk result (λ text. string_bytes text ≡ range_text addresses) }
{
    let (start, end) = ends(addresses);
    let start = address_text(alloc, start)?;
    let end = address_text(alloc, end)?;
    let mut text = format!(in alloc; "addresses {start}")?;
    write!(text, "-{end}")?;
    Ok(text)
}

// The first and the last address of a range.
fn ends(addresses: Range) -> (Address, Address)
    ensures { result ≡ (start_of addresses, end_of addresses) }
{
    match addresses {
        Range::V4(start, end) => (Address::V4(start), Address::V4(end)),
        Range::V6(start, end) => (Address::V6(start), Address::V6(end)),
    }
}
