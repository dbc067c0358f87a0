// The operations on an index that insert and delete are made of, on lent slices: `Ops` in the definitions.
ghost use Rattle.std.specs.Prelude.{◌≡◌, suc, ◌+◌, ◌*◌, ◌%◌, ◌<◌, ◌≤◌, length, slice_index, slice_index_or, slice_set};
ghost use Rattle.slots.specs.Store.{blank, edge_version};
ghost use Rattle.slots.specs.Inner.Rows.{HasRow};
ghost use Rattle.slots.specs.Inner.Writing.{SlotIn, Filled, Wrote, Killed, Finished};
ghost use Rattle.slots.specs.Lent.{SameSlices};

use super::graph::RowsMut;
use super::parts::write_vector;
use super::rows::BLANK;

// The edge version that a reference to `id` is written with.
fn edge_version(versions: &[u16], id: u32) -> u16
    ensures { result ≡ edge_version versions.now id }
{
    if id == BLANK {
        return 0;
    }
    versions.get(id as usize).copied().unwrap_or(0)
}

impl RowsMut<'_> {
    // Writes the first `degree` ids into slot `s`'s row, with their targets' present versions, then blanks. `write_neighbors` in the Rust.
    pub fn write(&mut self, s: usize, ids: &[u32])
        requires { HasRow self.old.degree self.old.targets.now self.old.edges.now s }
        ensures { Wrote self.old.degree self.old.targets.now self.old.edges.now self.old.versions.now s ids.now self.new.targets.now self.new.edges.now × SameSlices self.old self.new }
    {
        let base = s * self.degree;
        for place in 0..self.degree {
            let id = ids.get(place).copied().unwrap_or(BLANK);
            self.targets[base + place] = id;
            self.edges[base + place] = edge_version(self.versions, id);
        }
    }
}

// Writes a vector into slot `s`, which becomes live with an empty row. `write_vector`, `fill_neighbors` and `set_valid(id, true)` in the Rust.
pub fn fill(
    dim: usize,
    vectors: &mut [u8],
    rows: &mut RowsMut<'_>,
    marks: &mut [u8],
    s: usize,
    vector: &[u8],
)
    requires { SlotIn dim rows.old.degree vectors.old rows.old.targets.now rows.old.edges.now marks.old s vector.now }
    ensures { Filled dim rows.old.degree vectors.old rows.old.targets.now rows.old.edges.now rows.old.versions.now marks.old s vector.now vectors.new rows.new.targets.now rows.new.edges.now marks.new × SameSlices rows.old rows.new }
{
    write_vector(dim, vectors, s, vector);
    rows.write(s, &[]);
    marks[s] = 1;
}

// Marks slot `s` dead. `set_valid(id, false)` in the Rust.
pub fn kill(marks: &mut [u8], s: usize)
    requires { s < length marks.old }
    ensures { Killed marks.old s marks.new }
{
    marks[s] = 0;
}

// Gives slot `s` the next version; after 65,535 comes 0.
fn next_version(versions: &mut [u16], s: usize)
    requires { s < length versions.old }
    ensures { versions.new ≡ slice_set versions.old s (suc (slice_index versions.old s) % 65536) }
{
    versions[s] = versions[s].wrapping_add(1);
}

// The last act of a delete on slot `s`: the next version, and an empty row. `finish_delete_plan` in the Rust.
pub fn finish(degree: usize, targets: &mut [u32], edges: &mut [u16], versions: &mut [u16], s: usize)
    requires { HasRow degree targets.old edges.old s × (s < length versions.old) }
    ensures { Finished degree targets.old edges.old versions.old s targets.new edges.new versions.new }
{
    next_version(versions, s);
    let mut rows = RowsMut {
        degree,
        targets,
        edges,
        versions,
    };
    rows.write(s, &[]);
}
