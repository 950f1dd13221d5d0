// The edits of a job: each takes one simplex from its seen position to a new one, and A's marks go along with it. Reading
// an edit and judging it take numbers and a simplex or two, so that no list travels but the one that an edit moves.
#![tactic(auto)]

ghost use Rattle.std.specs.Prelude.{◌≡◌, true, ◌<◌, length};
ghost use Rattle.format.specs.Reading.{edit_fits};
ghost use Rattle.edits.specs.Meaning.{Named, Judged, Chosen, EditTaken, EditsTaken};

use complexes::Complex;
use lists::{Marks, Simplex, SimplexList};
use records::Header;
use refusals::{Reason, Refusal};

// An edit: the kind of its list, the seen and the new position there, and the simplex that it moves.
#[derive(Clone, Copy)]
pub struct Edit {
    pub kind: usize,
    pub seen: usize,
    pub new: usize,
    pub simplex: Simplex,
}

// Whether an edit's payload has an allowed list kind, and the length that it asks for.
fn edit_fits(p: &[u8]) -> bool
    ensures { result ≡ edit_fits p.now }
{
    let kind = records::u16_at(p, 0);
    if kind < SimplexList::EDGES as usize {
        return false;
    }
    if kind > SimplexList::TETRAHEDRA as usize {
        return false;
    }
    p.len() == EditsRead::START + kind
}

// The edit that a payload of that shape names.
fn edit_of(p: &[u8]) -> Edit
    requires { edit_fits p.now ≡ true }
    ensures { Named p.now result }
{
    let kind = records::u16_at(p, 0);
    let seen = records::u16_at(p, 2);
    let new = records::u16_at(p, 4);
    let simplex = lists::simplex_at(p, EditsRead::START, kind);
    Edit {
        kind,
        seen,
        new,
        simplex,
    }
}

// An edit record that was read: the edit, which no list has judged yet, and the offset of the record behind it.
#[derive(Clone, Copy)]
pub struct EditRead {
    pub edit: Edit,
    pub next: usize,
}

// Reads the edit record at a place of the file, where `left` more may stand.
fn read_edit(job: &[u8], at: usize, left: usize) -> Result<EditRead, Refusal>
    requires { at < length job.now }
    ensures { EditTaken job.now left at result }
{
    let size = stages::open(job, at, EditsRead::KIND)?;
    if left == 0 {
        return Err(Reason::Kind.at(at));
    }
    let p = records::payload(job, at, size);
    if !edit_fits(p) {
        return Err(Reason::Shape.at(at));
    }
    let edit = edit_of(p);
    Ok(EditRead {
        edit,
        next: at + Header::BYTES + size,
    })
}

// What an edit is judged by in a list: its count, and what stands at the seen position, if anything does.
#[derive(Clone, Copy)]
pub struct View {
    pub count: usize,
    pub there: Simplex,
}

// Of a view of each list, the one of the list of a kind.
#[tactic(auto, unfolding(format::specs::Simplex::simplices))]
fn view_of(kind: usize, edges: View, triangles: View, tetrahedra: View) -> View
    ensures { Chosen kind edges triangles tetrahedra result }
{
    if kind == SimplexList::EDGES as usize {
        return edges;
    }
    if kind == SimplexList::TRIANGLES as usize {
        return triangles;
    }
    tetrahedra
}

// Judges the edit of the record at a place: 10 where its simplex does not stand at the seen position, then 11 where there
// is no such new position.
#[tactic(auto, unfolding(format::specs::EditLaws::edited_list))]
fn judge(at: usize, edit: Edit, view: View) -> Result<(), Refusal>
    ensures { Judged at edit view result }
{
    let count = view.count.min(SimplexList::LIMIT);
    if count <= edit.seen {
        return Err(Reason::Stale.at(at));
    }
    if edit.simplex != view.there {
        return Err(Reason::Stale.at(at));
    }
    if count <= edit.new {
        return Err(Reason::Target.at(at));
    }
    Ok(())
}

// The complex and the marks after all edits of a job.
#[derive(Clone, Copy)]
pub struct EditsRead {
    pub complex: Complex,
    pub marks: Marks,
}

impl EditsRead {
    // an edit record's kind
    pub const KIND: u16 = 7;
    // "0 to 64 records"
    pub const MOST: usize = 64;
    // the list kind and the two positions stand before the simplex's vertices
    const START: usize = 6;
}

// Reads edit after edit to the end of the file. Each is judged in the order that the earlier ones left. The marks are of the
// simplices of dimension `dim`, and move with them.
pub fn read_edits(
    job: &[u8],
    mut at: usize,
    mut complex: Complex,
    mut marks: Marks,
    dim: usize,
) -> Result<EditsRead, Refusal>
    ensures { EditsTaken job.now at dim complex marks result }
{
    let mut left = EditsRead::MOST;
    while at < job.len() {
        let read = read_edit(job, at, left)?;
        let edit = read.edit;
        let kind = edit.kind;
        let seen = edit.seen;
        let new = edit.new;
        // a seen position past the limit is past every count: what stands here does not matter then
        let rank = seen.min(SimplexList::LIMIT - 1);
        let view = view_of(
            kind,
            View {
                count: complex.edges.count,
                there: complex.edges.items[rank],
            },
            View {
                count: complex.triangles.count,
                there: complex.triangles.items[rank],
            },
            View {
                count: complex.tetrahedra.count,
                there: complex.tetrahedra.items[rank],
            },
        );
        judge(at, edit, view)?;
        if kind == SimplexList::EDGES as usize {
            complex.edges = complex.edges.moved(seen, new);
        } else if kind == SimplexList::TRIANGLES as usize {
            complex.triangles = complex.triangles.moved(seen, new);
        } else {
            complex.tetrahedra = complex.tetrahedra.moved(seen, new);
        }
        at = read.next;
        left -= 1;
        if kind - 1 == dim {
            marks = marks.moved(seen, new);
        }
    }
    Ok(EditsRead { complex, marks })
}
