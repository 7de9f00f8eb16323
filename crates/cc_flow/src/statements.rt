//! The points of statements.

ghost use Rattle.std.specs.Prelude.{◌≡◌, ◌≤◌, ◌<◌, ◌+◌, ◌^◌, ◌++◌, [], ◌∷◌, IfOk, OnOk};
ghost use Rattle.cc_flow.specs.Points.{piece_of, pieces, size_of as size_of_stmt, total_of, point, list_points, case_points, if_points, loop_points, switch_points};
ghost use Rattle.cc_flow.specs.View.{case_pieces, total_of_cases};

use crate::counts::{size, size_of, size_of_cases};
use crate::next::{Site, if_next, one, reached, simple_next, switch_next};
use crate::types::Point;
use cc_program::num::{List, NoMemory};
use cc_program::{Case, Stmt};
use std::alloc::Global;

/// The path to a position in the list to which a path leads.
pub fn longer(alloc: Global, path: &[u32], position: u32) -> Result<Vec<u32>, NoMemory>
    ensures { IfOk result (λ longer. longer.items ≡ path.now ++ position ∷ []) }
{
    let mut longer = Vec::from_slice(alloc, path)?;
    longer.push(position)?;
    Ok(longer)
}

/// Puts a point behind others.
pub fn put_point(
    alloc: Global,
    points: &mut Vec<Point>,
    path: &[u32],
    site: Site,
    next: Vec<u32>,
) -> Result<(), NoMemory>
    ensures { OnOk result (points.new.items ≡ points.old.items ++ point path.now site next.items ∷ []) }
{
    let path = List::of(Vec::from_slice(alloc, path)?);
    points.push(Point {
        func: site.func,
        path,
        next: List::of(next),
    })?;
    Ok(())
}

/// Puts the point of a statement with none inside behind others.
fn put_simple(
    alloc: Global,
    points: &mut Vec<Point>,
    path: &[u32],
    site: Site,
    next: u32,
) -> Result<(), NoMemory>
    ensures { OnOk result (points.new.items ≡ points.old.items ++ point path.now site (next ∷ []) ∷ []) }
{
    let next = one(alloc, next)?;
    put_point(alloc, points, path, site, next)
}

/// Puts the points of a statement behind others.
#[cycle(put)]
#[tactic(auto, using(crate::proofs::Pieces::of_counts, crate::proofs::Pieces::of_pieces))]
fn put_stmt(
    alloc: Global,
    points: &mut Vec<Point>,
    s: &Stmt,
    path: &[u32],
    site: Site,
) -> Result<(), NoMemory>
    requires { site.number + size_of_stmt s.now < 2 ^ 32 }
    ensures { OnOk result (points.new.items ≡ points.old.items ++ (piece_of s.now).points path.now site) }
{
    match s {
        Stmt::If(_, a, b) => put_if(alloc, points, a.all(), b.all(), path, site),
        Stmt::While(_, a) => put_loop(alloc, points, a.all(), path, site),
        Stmt::Switch(_, cases) => put_switch(alloc, points, cases.all(), path, site),
        Stmt::Do(_)
        | Stmt::DoWhile(_, _)
        | Stmt::For(_, _, _, _)
        | Stmt::Break
        | Stmt::Continue
        | Stmt::Return(_)
        | Stmt::Empty
        | Stmt::Block(_) => put_simple(alloc, points, path, site, simple_next(s, site)),
    }
}

/// Puts the points of a list of statements behind others: the first has this position and the site's number.
#[cycle(put)]
pub fn put_list(
    alloc: Global,
    points: &mut Vec<Point>,
    list: &[Stmt],
    path: &[u32],
    first: u32,
    site: Site,
) -> Result<(), NoMemory>
    requires few { site.number + total_of list.now < 2 ^ 32 }
    requires low { first ≤ site.number }
    ensures { OnOk result (points.new.items ≡ points.old.items ++ list_points (pieces list.now) path.now first site) }
{
    let end = site.number + size(list);
    let mut number = site.number;
    let mut position = first;
    for s in list {
        let next = number + size_of(s);
        let inner = longer(alloc, path, position)?;
        let behind = reached(next, end, site.behind);
        put_stmt(
            alloc,
            points,
            s,
            &inner,
            Site {
                number,
                behind,
                ..site
            },
        )?;
        number = next;
        position += 1;
    }
    Ok(())
}

/// Puts the points of an `if` behind others.
#[cycle(put)]
#[tactic(auto, using(crate::proofs::Pieces::of_lengths))]
fn put_if(
    alloc: Global,
    points: &mut Vec<Point>,
    a: &[Stmt],
    b: &[Stmt],
    path: &[u32],
    site: Site,
) -> Result<(), NoMemory>
    requires { site.number + 1 + (total_of a.now + total_of b.now) < 2 ^ 32 }
    ensures { OnOk result (points.new.items ≡ points.old.items ++ if_points (pieces a.now) (pieces b.now) path.now site) }
{
    let these = size(a);
    let those = size(b);
    let next = if_next(alloc, site, these, those)?;
    put_point(alloc, points, path, site, next)?;
    let number = site.number + 1;
    put_list(alloc, points, a, path, 0, Site { number, ..site })?;
    let number = number + these;
    put_list(
        alloc,
        points,
        b,
        path,
        a.len() as u32,
        Site { number, ..site },
    )
}

/// Puts the points of an endless loop behind others.
#[cycle(put)]
fn put_loop(
    alloc: Global,
    points: &mut Vec<Point>,
    body: &[Stmt],
    path: &[u32],
    site: Site,
) -> Result<(), NoMemory>
    requires { site.number + 1 + total_of body.now < 2 ^ 32 }
    ensures { OnOk result (points.new.items ≡ points.old.items ++ loop_points (pieces body.now) path.now site) }
{
    let number = site.number + 1;
    let end = number + size(body);
    put_simple(alloc, points, path, site, reached(number, end, site.number))?;
    let inner = Site {
        number,
        behind: site.number,
        breaks: site.behind,
        continues: site.number,
        ..site
    };
    put_list(alloc, points, body, path, 0, inner)
}

/// Puts the points of a `switch` behind others.
#[cycle(put)]
fn put_switch(
    alloc: Global,
    points: &mut Vec<Point>,
    cases: &[Case],
    path: &[u32],
    site: Site,
) -> Result<(), NoMemory>
    requires { site.number + 1 + total_of_cases cases.now < 2 ^ 32 }
    ensures { OnOk result (points.new.items ≡ points.old.items ++ switch_points (case_pieces cases.now) path.now site) }
{
    let next = switch_next(alloc, site, cases)?;
    put_point(alloc, points, path, site, next)?;
    let inner = Site {
        number: site.number + 1,
        breaks: site.behind,
        ..site
    };
    put_cases(alloc, points, cases, path, inner)
}

/// Puts the points of the cases of a `switch` behind others: the first has the site's number.
#[cycle(put)]
fn put_cases(
    alloc: Global,
    points: &mut Vec<Point>,
    cases: &[Case],
    path: &[u32],
    site: Site,
) -> Result<(), NoMemory>
    requires { site.number + total_of_cases cases.now < 2 ^ 32 }
    ensures { OnOk result (points.new.items ≡ points.old.items ++ case_points (case_pieces cases.now) path.now 0 site) }
{
    let end = site.number + size_of_cases(cases);
    let mut number = site.number;
    let mut position: u32 = 0;
    for case in cases {
        let body = case.body.all();
        let next = number + size(body);
        let falls_to = reached(next, end, site.behind);
        let inner = Site {
            number,
            behind: falls_to,
            ..site
        };
        put_list(alloc, points, body, path, position, inner)?;
        number = next;
        position += body.len() as u32;
    }
    Ok(())
}
