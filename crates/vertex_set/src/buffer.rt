// Writing to the front of a buffer.
ghost use Rattle.std.specs.Prelude.{◌≡◌, ◌≤◌, length};
ghost use Rattle.vertex_set.specs.Buffers.{overwritten};

// Writes the items to the front of out; what stands behind them stays.
pub fn overwrite<T: Copy>(items: &[T], out: &mut [T])
    requires { length items.now ≤ length out.old }
    ensures { out.new ≡ overwritten items.now out.old }
{
    out[..items.len()].copy_from_slice(items);
}
