//! How points are written.

use cases_script::Page;
use cc_flow::{Flow, FlowEnd, Point, points};
use cc_program::Program;
use std::alloc::Global;

/// Numbers with something between them.
fn write_numbers(page: &mut Page, numbers: &[u32], between: &str) {
    for (i, number) in numbers.iter().enumerate() {
        if i > 0 {
            page.put(between);
        }
        page.show(*number);
    }
}

/// A point with its number.
pub fn write_point(page: &mut Page, number: usize, point: &Point) {
    page.show(number);
    page.put_with("=", point.func);
    page.put(":");
    write_numbers(page, point.path.all(), ".");
    page.put(">");
    write_numbers(page, point.next.all(), ",");
    page.put(" ");
}

/// All points of a program, and the entries of its functions.
fn write_flow(page: &mut Page, flow: &Flow) {
    for (number, point) in flow.points.all().iter().enumerate() {
        write_point(page, number, point);
    }
    page.put("first ");
    write_numbers(page, flow.first.all(), ",");
}

/// Why a program has no points.
pub fn write_end(page: &mut Page, end: FlowEnd) {
    match end {
        FlowEnd::Limit(count) => page.put_with("limit ", count),
        FlowEnd::NoMemory => page.put("no memory"),
    }
}

/// The points of a program.
pub fn write_points(alloc: Global, page: &mut Page, p: &Program) {
    match points(alloc, p) {
        Ok(flow) => write_flow(page, &flow),
        Err(end) => write_end(page, end),
    }
}
