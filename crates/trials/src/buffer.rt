// Buffers that are filled from their start on, as far as they have room.
ghost use Rattle.std.specs.Prelude.{◌≤◌};

#[derive(Drop)]
pub(crate) struct Buffer<T, const N: usize> {
    items: [T; N],
    used: usize,
    ghost within: { used ≤ N },
}

impl<T: Copy, const N: usize> Buffer<T, N> {
    // An empty one. Until it is filled, each item is as given.
    pub(crate) fn new(item: T) -> Self {
        Buffer {
            items: [item; N],
            used: 0,
        }
    }

    pub(crate) fn as_slice(&self) -> &[T] {
        &self.items[..self.used]
    }

    // The first so many items, filled or not.
    pub(crate) fn first(&self, count: usize) -> Option<&[T]> {
        self.items.get(..count)
    }

    // Adds an item, where there is room.
    pub(crate) fn push(&mut self, item: T) {
        if self.used < N {
            self.items[self.used] = item;
            self.used += 1;
        }
    }

    pub(crate) fn push_times(&mut self, item: T, times: usize) {
        for _ in 0..times {
            self.push(item);
        }
    }

    pub(crate) fn clear(&mut self) {
        self.used = 0;
    }
}
