//! Reads the texts of a pair, and compares a service on both sites.
use crate::alike::asked::Asked;
use crate::alike::traces::{Trace, trace_of};
use asked_service::{SettledUnit, settle_unit};
use host_io::{MemShelf, are_files};
use report_text::read_script;
use row_tools::{said, text_of};
use std::alloc::{AllocError, Global};

/// The texts of a pair: calls.txt, the two sites, the lines of the unit, the folder and the script.
#[derive(Drop)]
pub struct PairTexts<'a> {
    pub calls: &'a str,
    pub site: &'a str,
    pub other: &'a str,
    pub lines: &'a str,
    pub folder: &'a str,
    pub script: &'a str,
}

/// Says whether launch and replies are the same on both sites, and gives the replies on each.
pub fn pair_line(alloc: Global, texts: &PairTexts<'_>) -> Result<String, AllocError> {
    match &both(alloc, texts) {
        Some((one, other)) => told(alloc, one, other),
        None => said(alloc, "no pair"),
    }
}

// What the service comes to on each site. None if a text is refused.
fn both(alloc: Global, texts: &PairTexts<'_>) -> Option<(Trace, Trace)> {
    let one = trace(alloc, texts, texts.site, texts.other)?;
    Some((one, trace(alloc, texts, texts.other, texts.site)?))
}

// What the service comes to on a site of a pair.
fn trace(alloc: Global, texts: &PairTexts<'_>, site: &str, other: &str) -> Option<Trace> {
    let one = settled(alloc, texts, site)?;
    let other = settled(alloc, texts, other)?;
    let script = read_script(alloc, &one.inputs.calls, texts.script.as_bytes()).ok()?;
    let asked = Asked {
        unit: &one.inputs.unit,
        calls: &one.inputs.calls,
        site: &one.inputs.site,
        other: &other.inputs.site,
        folder: texts.folder,
        script: script.list(),
    };
    trace_of(alloc, &asked).ok()
}

// The unit web.service with its settings on a site. None if a text is refused.
fn settled(alloc: Global, texts: &PairTexts<'_>, site: &str) -> Option<SettledUnit> {
    let files = files_of(alloc, texts, site).ok()?;
    if !are_files(files.as_slice()) {
        return None;
    }
    let mut shelf = MemShelf::new(files, Vec::new(alloc));
    settle_unit(alloc, &mut shelf, "web.service").ok()
}

// The unit and the tables as files.
fn files_of(
    alloc: Global,
    texts: &PairTexts<'_>,
    site: &str,
) -> Result<Vec<(String, Vec<u8>)>, AllocError> {
    let lines = text_of(alloc, texts.lines)?;
    let unit = format!(in alloc; "[Service]\n{lines}\n")?;
    let mut files = Vec::new(alloc);
    files.push(file(alloc, "etc/systemd/system/web.service", unit.as_str())?)?;
    files.push(file(alloc, "calls.txt", texts.calls)?)?;
    files.push(file(alloc, "site.toml", site)?)?;
    Ok(files)
}

fn file(alloc: Global, path: &str, text: &str) -> Result<(String, Vec<u8>), AllocError> {
    Ok((
        String::from_str(alloc, path)?,
        text.as_bytes().to_vec(alloc)?,
    ))
}

fn told(alloc: Global, one: &Trace, other: &Trace) -> Result<String, AllocError> {
    let is_same = one.launch.as_str() == other.launch.as_str()
        && one.replies.as_str() == other.replies.as_str();
    format!(in alloc;
        "{}\nsite {}: {}\nother {}: {}",
        if is_same { "alike" } else { "different" },
        one.sight(),
        one.replies,
        other.sight(),
        other.replies
    )
}
