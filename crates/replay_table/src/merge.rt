// Ascending cells brought into others, from the top down, so that no cell is overwritten before it is moved: each is moved
// once, however many come.
ghost use Rattle.std.specs.Prelude.{◌≤◌, ◌<◌, length};
ghost use Rattle.machine.specs.Ram.{cells as cells_of};
ghost use Rattle.replay_table.specs.Merge.{Merging, Merged, Topped};

// The cell that stands topmost of those left, and how many are then left of both.
#[derive(Clone, Copy)]
struct Taken {
    address: u64,
    value: u64,
    own: usize,
    new: usize,
}

// Of the first i own cells and the first j new ones.
fn top(addresses: &[u64], values: &[u64], i: usize, keys: &[u64], vals: &[u64], j: usize) -> Taken
    requires { (i ≤ length addresses.now) × (i ≤ length values.now) × (0 < j) × (j ≤ length keys.now) × (j ≤ length vals.now) }
    ensures { Topped (cells_of i addresses.now values.now) (cells_of j keys.now vals.now) i j result.address result.value result.own result.new }
{
    let key = keys[j - 1];
    let value = vals[j - 1];
    if 0 < i {
        let address = addresses[i - 1];
        if key < address {
            return Taken {
                address,
                value: values[i - 1],
                own: i - 1,
                new: j,
            };
        }
        if address == key {
            return Taken {
                address: key,
                value,
                own: i - 1,
                new: j - 1,
            };
        }
    }
    Taken {
        address: key,
        value,
        own: i,
        new: j - 1,
    }
}

// Brings n cells into those of two slices, which are `total` then. Slices and not Cells, whose pointers are loaded anew for each cell: 1.9
// ns and not 1.4. The places are counted by hand: a `for` over them from the top down, which breaks where no new cell is left, takes 1.04 to
// 1.10 times as long, and 1.2 where 500 cells come into 500.
pub fn merge_slices(
    addresses: &mut [u64],
    values: &mut [u64],
    count: usize,
    keys: &[u64],
    vals: &[u64],
    n: usize,
    total: usize,
)
    requires { Merging (cells_of count addresses.old values.old) (cells_of n keys.now vals.now) total }
    ensures { Merged (cells_of count addresses.old values.old) (cells_of n keys.now vals.now) (cells_of total addresses.new values.new) }
{
    let mut i = count;
    let mut j = n;
    let mut at = total;
    while 0 < j {
        let t = top(addresses, values, i, keys, vals, j);
        at -= 1;
        addresses[at] = t.address;
        values[at] = t.value;
        i = t.own;
        j = t.new;
    }
}
