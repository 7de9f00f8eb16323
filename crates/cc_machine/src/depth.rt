//! How many nodes of the tree a frame stands for: one, or none.

ghost use Rattle.std.specs.Prelude.{◌≡◌};
ghost use Rattle.cc_tree.specs.Depth.{nodes as nodes_of, nodes_of_tree as nodes_of_tree_frame, nodes_of_part as nodes_of_part_frame, nodes_of_specs as nodes_of_specs_frame, nodes_of_declr as nodes_of_declr_frame, nodes_of_value as nodes_of_value_frame};

use cc_tree::state::{DeclrFrame, Frame, PartFrame, SpecsFrame, TreeFrame, ValueFrame};

fn nodes_of_tree(frame: &TreeFrame) -> usize
    ensures { result ≡ nodes_of_tree_frame frame.now }
{
    match frame {
        TreeFrame::Operators(_) => 0,
        _ => 1,
    }
}

fn nodes_of_part(frame: &PartFrame) -> usize
    ensures { result ≡ nodes_of_part_frame frame.now }
{
    match frame {
        PartFrame::Enumr(_, _, _) | PartFrame::Value | PartFrame::Expr(_) => 0,
        _ => 1,
    }
}

fn nodes_of_specs(frame: &SpecsFrame) -> usize
    ensures { result ≡ nodes_of_specs_frame frame.now }
{
    match frame {
        SpecsFrame::TypeName(_, _) | SpecsFrame::Param(_, _) => 1,
        SpecsFrame::Member(_, _) | SpecsFrame::Decl(_, _) => 0,
    }
}

fn nodes_of_declr(frame: &DeclrFrame) -> usize
    ensures { result ≡ nodes_of_declr_frame frame.now }
{
    match frame {
        DeclrFrame::Member(_) | DeclrFrame::Init(_) => 0,
        _ => 1,
    }
}

fn nodes_of_value(frame: &ValueFrame) -> usize
    ensures { result ≡ nodes_of_value_frame frame.now }
{
    match frame {
        ValueFrame::Init(_, _, _) => 0,
        ValueFrame::Many(_, _) => 1,
    }
}

pub fn nodes(frame: &Frame) -> usize
    ensures { result ≡ nodes_of frame.now }
{
    match frame {
        Frame::Tree(frame) => nodes_of_tree(frame),
        Frame::Part(frame) => nodes_of_part(frame),
        Frame::Specs(frame) => nodes_of_specs(frame),
        Frame::Declr(frame) => nodes_of_declr(frame),
        Frame::Value(frame) => nodes_of_value(frame),
        Frame::Block(block) if block.body => 0,
        Frame::Line(_) | Frame::Block(_) | Frame::First(_, _) => 1,
        Frame::Body(_) | Frame::Items(_) => 0,
    }
}
