// Writing parts of lent slices. Copies are loops, here and in the crates above: the library's `copy_from_slice` and `rotate_right` call memmove, and the archive
// for C calls memset alone.
ghost use Rattle.std.specs.Prelude.{◌≡◌, ◌+◌, ◌-◌, ◌*◌, ◌≤◌, ◌++◌, length, replicate};
ghost use Rattle.lists.specs.Lists.{put_front, put_part};

// Copies `from` to the front of `to`.
pub fn copy<T: Copy>(to: &mut [T], from: &[T])
    requires { length from.now ≤ length to.old }
    ensures { to.new ≡ put_front from.now to.old }
{
    for place in 0..from.len() {
        to[place] = from[place];
    }
}

// Copies `from` to the front of `to`, and writes `value` to every place behind it.
pub fn lay<T: Copy>(to: &mut [T], from: &[T], value: T)
    requires { (length from.now ≤ length to.old) × T.is_infallible value × ((y : T) → T.is_clone value y → y ≡ value) }
    ensures { to.new ≡ from.now ++ replicate (length to.old - length from.now) value }
{
    copy(to, from);
    to[from.len()..].fill(value);
}

// Writes `vector` into slot `s`'s place.
pub fn write_vector(dim: usize, vectors: &mut [u8], s: usize, vector: &[u8])
    requires { (length vector.now ≡ dim) × (s * dim + dim ≤ length vectors.old) }
    ensures { vectors.new ≡ put_part dim s vector.now vectors.old }
{
    copy(&mut vectors[s * dim..], vector);
}
