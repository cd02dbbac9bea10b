//! Long histories: documents that share their records stay apart.

use crate::asserts::holds;
use crate::dice::Dice;
use crate::samples::{
    BLUE, GREEN, RED, after, create, edited_by, moved, polygon, push, record, rectangle, restored,
};
use canvas_doc::{Document, Edit, Parent, Record, Spot};
use canvas_key::{Key, fresh};
use canvas_plane::Pose;
use canvas_shape::{Colour, Kind};
use std::alloc::Global;
use std::process::Abort;

// The group in which every third shape lies.
const GROUP: Parent = Parent::Shape(1);

// A new shape, whose index stands for its id.
fn creation(id: u32) -> Edit {
    let parent = if id % 3 == 0 { GROUP } else { Parent::Page };
    create(rectangle(id, 1, RED), parent, Spot::At(fresh(id)))
}

/// The edit that is made after so many. The first 13 put shapes at the end.
pub(crate) fn edit_after(made: u32) -> Edit {
    match made {
        0..=12 => creation(made.saturating_add(190)),
        13 => Edit::Respace { parent: GROUP },
        14 => turn(69, moved(7, 0)),
        15 => Edit::Show {
            id: 140,
            hidden: true,
        },
        16 => Edit::Reshape {
            id: 128,
            kind: rectangle(1, 9, BLUE),
        },
        17 => Edit::Move {
            id: 2,
            parent: GROUP,
            spot: Spot::At(fresh(900)),
        },
        18 => Edit::Delete { id: 1 },
        19 => turn(70, moved(9, 0)),
        20 => Edit::Respace {
            parent: Parent::Page,
        },
        _ => creation(203),
    }
}

fn turn(id: u32, pose: Pose) -> Edit {
    Edit::Pose { id, pose }
}

// Whether a shape is there after so many edits: with the group go 2 and every third shape.
fn is_there(made: u32, id: u32) -> bool {
    let created = id <= made.saturating_add(189) && (id != 203 || made == 22);
    created && (made < 19 || id > 2 && id % 3 != 0)
}

// The index of a shape after so many edits: on the page 4, 5, 7, 8 and so on get new ones.
fn index_after(made: u32, id: u32) -> Key {
    fresh(match id {
        2 if made >= 18 => 900,
        _ if id % 3 == 0 && made >= 14 => (id / 3).saturating_sub(1),
        _ if id < 203 && made >= 21 => id.saturating_sub(id / 3).saturating_sub(3),
        _ => id,
    })
}

// The record that a shape should have after so many edits.
fn record_after(made: u32, id: u32) -> Record {
    let grouped = id % 3 == 0 || id == 2 && made >= 18;
    let parent = if grouped { GROUP } else { Parent::Page };
    let kind = match id {
        1 => Kind::Group,
        128 if made >= 17 => rectangle(1, 9, BLUE),
        _ => rectangle(id, 1, RED),
    };
    let mut shape = record(id, parent, index_after(made, id), kind);
    match id {
        69 if made >= 15 => shape.pose = moved(7, 0),
        70 if made >= 20 => shape.pose = moved(9, 0),
        140 if made >= 16 => shape.hidden = true,
        _ => {}
    }
    shape
}

fn records_after(rt: &impl Abort, alloc: Global, made: u32) -> Vec<Record> {
    let mut records = Vec::new(alloc);
    for id in 1..204u32 {
        if is_there(made, id) {
            push(rt, &mut records, record_after(made, id));
        }
    }
    records
}

// Whether a document finds each of these records.
fn finds_all(document: &Document, wanted: &[Record]) -> bool {
    for shape in wanted {
        if document.get(shape.id) != Some(shape) {
            return false;
        }
    }
    document.count() == wanted.len()
}

/// Asserts that a document has the records that are there after so many edits, as it lists them and
/// as it finds them.
pub(crate) fn check_records(rt: &impl Abort, alloc: Global, document: &Document, made: u32) {
    let wanted = records_after(rt, alloc, made);
    holds(rt, "found after", &made, finds_all(document, &wanted));
    let listed = all_of(rt, alloc, document);
    holds(rt, "listed after", &made, listed == wanted);
}

/// Each of the documents has those that are there after as many edits as stand in front of it.
pub(crate) fn check_all_records(rt: &impl Abort, alloc: Global, documents: &[Document]) {
    let mut made: u32 = 0;
    for document in documents {
        check_records(rt, alloc, document, made);
        made = made.saturating_add(1);
    }
}

/// The document before the first edit.
pub(crate) fn first_document(rt: &impl Abort, alloc: Global) -> Document {
    restored(alloc, records_after(rt, alloc, 0), 190).expect(rt, "a document")
}

fn next_document(rt: &impl Abort, alloc: Global, last: &Document, made: u32) -> Document {
    edited_by(alloc, last, edit_after(made)).expect(rt, "accepted")
}

// The document after so many edits, made of the last one.
fn next_of(rt: &impl Abort, alloc: Global, documents: &[Document], made: u32) -> Document {
    match documents.last() {
        Some(last) => next_document(rt, alloc, last, made.saturating_sub(1)),
        None => first_document(rt, alloc),
    }
}

// The documents with the one after so many edits.
fn push_next(rt: &impl Abort, alloc: Global, documents: &mut Vec<Document>, made: u32) {
    let next = next_of(rt, alloc, documents, made);
    documents.push(next).expect(rt, "memory");
}

#[test]
fn a_long_history_keeps_its_documents_apart(rt: HostRuntime) {
    let alloc = rt.alloc();
    let mut documents = Vec::new(alloc);
    for made in 0..23u32 {
        push_next(&rt, alloc, &mut documents, made);
        check_all_records(&rt, alloc, &documents);
    }
    let count = documents.len();
    holds(&rt, "23 documents", &count, count == 23);
}

// A shape of a crowd: eight groups, and rectangles of which every ninth lies on the page.
fn one_of_many(id: u32) -> Record {
    let is_group = id < 9;
    let on_page = is_group || id % 9 == 0;
    let parent = if on_page {
        Parent::Page
    } else {
        Parent::Shape(id % 9)
    };
    let kind = if is_group {
        Kind::Group
    } else {
        rectangle(4, 2, Colour([(id % 200) as u8, 7, 9]))
    };
    let mut shape = record(id, parent, fresh(id), kind);
    shape.pose = Pose {
        dx: (id % 40) as i64,
        dy: (id % 30) as i64,
        quarter: (id % 4) as u8,
        flip: id % 8 > 3,
    };
    shape
}

fn crowd(rt: &impl Abort, alloc: Global) -> Vec<Record> {
    let mut records = Vec::new(alloc);
    for id in 1..701u32 {
        push(rt, &mut records, one_of_many(id));
    }
    records
}

/// An edit of each sort in turn, and at times the deletion of a group.
pub(crate) fn edit_in_turn(dice: &mut Dice, number: u32) -> Edit {
    let id = dice.below(750) as u32 + 1;
    let group = dice.below(8) as u32 + 1;
    let parent = Parent::Shape(group);
    let pose = moved(dice.near(), dice.near());
    match number % 9 {
        0 => create(rectangle(5, 4, BLUE), parent, Spot::Front),
        1 => Edit::Move {
            id,
            parent,
            spot: Spot::Back,
        },
        2 => Edit::Pose { id, pose },
        3 => Edit::Pose { id: group, pose },
        4 => Edit::Reshape {
            id,
            kind: rectangle(7, 1, GREEN),
        },
        5 => Edit::Show {
            id,
            hidden: dice.coin(),
        },
        6 => Edit::Respace { parent },
        7 => Edit::Delete { id },
        _ => whole_edit(number, group),
    }
}

// An edit of a whole group, or of the page.
fn whole_edit(number: u32, group: u32) -> Edit {
    match number % 4 {
        0 => Edit::Delete { id: group },
        1 => Edit::Respace {
            parent: Parent::Page,
        },
        _ => Edit::Move {
            id: group,
            parent: Parent::Page,
            spot: Spot::Front,
        },
    }
}

// The document after an edit in turn, or what it was where the edit is refused.
fn edited_in_turn(alloc: Global, dice: &mut Dice, document: Document, number: u32) -> Document {
    edited_by(alloc, &document, edit_in_turn(dice, number)).unwrap_or(document)
}

// The document after some edits, those that are refused left out.
fn next_version(
    rt: &impl Abort,
    alloc: Global,
    dice: &mut Dice,
    document: &Document,
    number: u32,
) -> Document {
    let mut after = document.try_clone(alloc).expect(rt, "memory");
    for more in 0..3u32 {
        let number = number.wrapping_mul(3).wrapping_add(more);
        after = edited_in_turn(alloc, dice, after, number);
    }
    after
}

/// What a document is, told by its records, the children of the page and some colours.
#[derive(PartialEq, Drop)]
pub(crate) struct Told {
    records: Vec<Record>,
    page: Vec<Record>,
    colours: Vec<Colour>,
}

/// What a document is.
pub(crate) fn tell(rt: &impl Abort, alloc: Global, document: &Document) -> Told {
    Told {
        records: all_of(rt, alloc, document),
        page: page_of(rt, alloc, document),
        colours: colours_of(rt, alloc, document),
    }
}

/// Copies of the records of a document, in their order.
pub(crate) fn all_of(rt: &impl Abort, alloc: Global, document: &Document) -> Vec<Record> {
    let listed = document.records_in_order(alloc).expect(rt, "memory");
    copies(rt, alloc, &listed)
}

fn page_of(rt: &impl Abort, alloc: Global, document: &Document) -> Vec<Record> {
    let children = document.children(alloc, Parent::Page).expect(rt, "memory");
    copies(rt, alloc, &children)
}

fn copies(rt: &impl Abort, alloc: Global, shapes: &[&Record]) -> Vec<Record> {
    let mut records = Vec::new(alloc);
    for shape in shapes {
        push(
            rt,
            &mut records,
            shape.try_clone(alloc).expect(rt, "memory"),
        );
    }
    records
}

fn colours_of(rt: &impl Abort, alloc: Global, document: &Document) -> Vec<Colour> {
    let mut colours = Vec::new(alloc);
    for at in 0..8i32 {
        let colour = document.colour_at(at.wrapping_mul(9), at.wrapping_mul(5));
        colours.push(colour).expect(rt, "memory");
    }
    colours
}

/// A document, and what it was.
pub(crate) type Version = (Told, Document);

/// Keeps a document with what it is.
pub(crate) fn push_version(
    rt: &impl Abort,
    alloc: Global,
    versions: &mut Vec<Version>,
    document: Document,
) {
    let told = tell(rt, alloc, &document);
    versions.push((told, document)).expect(rt, "memory");
}

/// Eight groups with some 700 shapes.
pub(crate) fn crowd_document(rt: &impl Abort, alloc: Global) -> Document {
    restored(alloc, crowd(rt, alloc), 701).expect(rt, "a document")
}

// The versions with the one after some edits, or the crowd.
fn push_next_version(
    rt: &impl Abort,
    alloc: Global,
    dice: &mut Dice,
    versions: &mut Vec<Version>,
    number: u32,
) {
    let next = match versions.last() {
        Some((_, last)) => next_version(rt, alloc, dice, last, number),
        None => crowd_document(rt, alloc),
    };
    push_version(rt, alloc, versions, next);
}

// The crowd, and as many versions more.
fn versions(rt: &impl Abort, alloc: Global, more: u32) -> Vec<Version> {
    let mut dice = Dice::new(4);
    let mut versions = Vec::new(alloc);
    push_next_version(rt, alloc, &mut dice, &mut versions, 0);
    for number in 0..more {
        push_next_version(rt, alloc, &mut dice, &mut versions, number);
    }
    versions
}

fn is_what_it_was(rt: &impl Abort, alloc: Global, (was, version): &Version) -> bool {
    tell(rt, alloc, version) == *was
}

/// Asserts that each version still is what it was when it was kept.
pub(crate) fn check_versions(rt: &impl Abort, alloc: Global, versions: &[Version]) {
    let mut number: u32 = 0;
    for version in versions {
        let same = is_what_it_was(rt, alloc, version);
        holds(rt, "what the version was", &number, same);
        number = number.saturating_add(1);
    }
}

#[test]
fn many_versions_stay_what_they_were(rt: HostRuntime) {
    let alloc = rt.alloc();
    let versions = versions(&rt, alloc, 64);
    let count = versions.len();
    holds(&rt, "65 versions", &count, count == 65);
    check_versions(&rt, alloc, &versions);
}

// A triangle on the page.
fn triangle(rt: &impl Abort, alloc: Global) -> Document {
    let kind = polygon(alloc, &[(0, 0), (4, 0), (0, 4)]).expect(rt, "memory");
    let edit = create(kind, Parent::Page, Spot::Front);
    after(rt, alloc, Document::empty(alloc), edit)
}

fn check_clone(rt: &impl Abort, alloc: Global, document: &Document) {
    let clone = document.try_clone(alloc).expect(rt, "memory");
    let next = clone.next_id();
    holds(rt, "next id 2", &next, next == 2);
    let same = tell(rt, alloc, document) == tell(rt, alloc, &clone);
    holds(rt, "the clone", &1, same);
    drop(clone);
}

#[test]
fn a_triangle_is_cloned(rt: HostRuntime) {
    let alloc = rt.alloc();
    let document = triangle(&rt, alloc);
    check_clone(&rt, alloc, &document);
    holds(&rt, "red", &(0, 0), document.colour_at(0, 0) == RED);
    drop(document);
}

// Whether the change that an edit is decided to be fits the document.
fn is_fitting(rt: &impl Abort, alloc: Global, document: &Document, edit: Edit) -> bool {
    let change = document.decide(alloc, &edit).expect(rt, "accepted");
    document.fits(&change)
}

#[test]
fn decided_changes_fit(rt: HostRuntime) {
    let alloc = rt.alloc();
    let document = first_document(&rt, alloc);
    for made in 13..18u32 {
        let is_so = is_fitting(&rt, alloc, &document, edit_after(made));
        holds(&rt, "fits", &made, is_so);
    }
    let new = is_fitting(&rt, alloc, &document, edit_after(0));
    holds(&rt, "fits", &0, new);
    drop(document);
}
