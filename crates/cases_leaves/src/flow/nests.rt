//! Functions of many statements, of which a summary is written.

use crate::flow::builder::Builder;
use crate::flow::outcome::{write_end, write_point};
use cases_script::{Page, split};
use cc_flow::{Flow, points};
use cc_program::Program;
use std::alloc::Global;

/// Statements that stand in one another, the innermost a write.
fn put_nest(builder: &mut Builder, depth: u32) -> Option<()> {
    for _ in 1..depth {
        builder.open_if()?;
    }
    builder.put_write()?;
    for _ in 1..depth {
        builder.close()?;
    }
    Some(())
}

/// A function of so many statements, each `depth` in one another.
fn program_of(alloc: Global, count: u32, depth: u32) -> Option<Program> {
    let mut builder = Builder::new(alloc);
    if depth == 0 {
        return None;
    }
    for _ in 0..count / depth {
        put_nest(&mut builder, depth)?;
    }
    for _ in 0..count % depth {
        builder.put_write()?;
    }
    builder.end_function()?;
    builder.finish()
}

/// How many points there are, and the last two.
fn write_summary(page: &mut Page, flow: &Flow) {
    let all = flow.points.all();
    page.show(all.len());
    page.put(" points: .. ");
    for (number, point) in all.iter().enumerate() {
        if all.len() - number <= 2 {
            write_point(page, number, point);
        }
    }
}

/// Writes the points of a case.
pub fn write_outcome(alloc: Global, page: &mut Page, case: &str) {
    let (count, depth) = split(case);
    let (Ok(count), Ok(depth)) = (count.parse::<u32>(), depth.parse::<u32>()) else {
        return page.put("unclear");
    };
    match program_of(alloc, count, depth) {
        None => page.put("unclear"),
        Some(p) => match points(alloc, &p) {
            Ok(flow) => write_summary(page, &flow),
            Err(end) => write_end(page, end),
        },
    }
}
