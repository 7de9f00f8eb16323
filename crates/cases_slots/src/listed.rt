//! How slots are written.

use cases_script::Page;
use cc_slots_types::{Class, Reason, Slot};

fn class_word(class: Class) -> &'static str {
    match class {
        Class::Lone => "lone",
        Class::Read => "read",
        Class::Written => "written",
    }
}

fn reason_word(reason: Reason) -> &'static str {
    match reason {
        Reason::Volatile => "volatile",
        Reason::Const => "const",
        Reason::Addressed => "addressed",
        Reason::Automatic => "automatic",
        Reason::Torn => "torn",
        Reason::Index => "index",
        Reason::Wide => "wide",
    }
}

fn write_points(page: &mut Page, points: &[u32]) {
    for point in points {
        page.put_with(" ", *point);
    }
}

fn write_slot(page: &mut Page, slot: &Slot) {
    page.bytes(slot.name.all());
    page.put_with(" ", class_word(slot.class));
    page.put_with(" ", slot.count);
    page.put_with("*", slot.bytes);
    page.put_with(" ", slot.bits);
    page.put(" reads");
    write_points(page, slot.reads.all());
    page.put(" writes");
    write_points(page, slot.writes.all());
    page.put_with(" ", slot.reason.map_or("free", reason_word));
    page.put("\n");
}

/// Writes a line for each slot.
pub fn write_slots(page: &mut Page, slots: &[Slot]) {
    for slot in slots {
        write_slot(page, slot);
    }
}
