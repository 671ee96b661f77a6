//! Likes as lines of text, and the scripts of their workers.
use crate::likes::LikeRequest;
use anyhow::{Result, bail, ensure};
use std::alloc::{AllocError, Global};
use std::io::BufRead;

// A script is a thread of its own.
const MOST_WORKERS: usize = 64;

// A line's worker and request: `0,like,USER,PAGE,TIME` or `0,view,USER,PAGE`.
fn request_of(line: &str) -> Option<(usize, LikeRequest)> {
    let mut fields = line.split(',');
    let worker = fields.next()?.parse::<usize>().ok()?;
    let kind = fields.next()?;
    let user = fields.next()?.parse::<u32>().ok()?;
    let page = fields.next()?.parse::<u32>().ok()?;
    let request = match kind {
        "like" => LikeRequest::Like {
            user,
            page,
            time: fields.next()?.parse::<u64>().ok()?,
        },
        "view" => LikeRequest::View { user, page },
        _ => return None,
    };
    Some((worker, request))
}

// The script of a worker, and empty ones of those before it that have none.
fn script_of<'a>(
    alloc: Global,
    scripts: &'a mut Vec<Vec<LikeRequest>>,
    worker: usize,
) -> Result<Option<&'a mut Vec<LikeRequest>>, AllocError> {
    for _added in scripts.len()..worker.saturating_add(1) {
        scripts.push(Vec::new(alloc))?;
    }
    Ok(scripts.get_mut(worker))
}

/// The scripts of all workers, from lines that end a reader.
pub fn read_scripts(alloc: Global, reader: impl BufRead + Drop) -> Result<Vec<Vec<LikeRequest>>> {
    let mut scripts = Vec::new(alloc);
    for (at, line) in reader.lines(alloc).enumerate() {
        let number = at.saturating_add(1);
        let line = line?;
        let Some((worker, request)) = request_of(&line) else {
            bail!("line {number} is no request");
        };
        ensure!(
            worker < MOST_WORKERS,
            "line {number}: more than {MOST_WORKERS} workers"
        );
        if let Some(script) = script_of(alloc, &mut scripts, worker)? {
            script.push(request)?;
        }
    }
    Ok(scripts)
}
