// Numbers that stand in line.
ghost use Rattle.std.specs.Prelude.{◌+◌, ◌^◌, ◌<◌};

use mx_base::OutOfMemory;
use std::alloc::Global;

// The places behind and before one. What isn't in line is behind itself.
#[derive(Clone, Copy)]
struct Node {
    next: u32,
    previous: u32,
}

/// Numbers that stand in line, each once, in memory that is taken once. A number beyond those that there are never does.
#[derive(Drop)]
pub struct Line {
    // Of each number, and last of the line itself: the first is behind it, and the last before it.
    nodes: Vec<Node>,
    head: u32,
}

impl Line {
    /// Nobody in line, of so many numbers.
    pub fn new(alloc: Global, numbers: u32) -> Result<Self, OutOfMemory>
        requires { numbers + 1 < 2 ^ 32 }
    {
        let mut nodes = Vec::with_capacity(alloc, numbers as usize + 1)?;
        for number in 0..numbers + 1 {
            nodes.push(Node {
                next: number,
                previous: number,
            })?;
        }
        Ok(Line {
            nodes,
            head: numbers,
        })
    }

    fn node(&self, number: u32) -> Node {
        match self.nodes.get(number as usize) {
            Some(node) => *node,
            None => Node {
                next: number,
                previous: number,
            },
        }
    }

    // One stands right behind another.
    fn joins(&mut self, before: u32, behind: u32) {
        if let Some(node) = self.nodes.get_mut(before as usize) {
            node.next = behind;
        }
        if let Some(node) = self.nodes.get_mut(behind as usize) {
            node.previous = before;
        }
    }

    /// A number goes to the end. Takes no memory.
    pub fn put(&mut self, number: u32) {
        if number >= self.head {
            return;
        }
        self.take(number);
        let last = self.node(self.head).previous;
        self.joins(last, number);
        self.joins(number, self.head);
    }

    /// A number stands in line no more. Takes no memory.
    pub fn take(&mut self, number: u32) {
        let node = self.node(number);
        if number >= self.head || node.next == number {
            return;
        }
        self.joins(node.previous, node.next);
        self.joins(number, number);
    }

    /// The first.
    pub fn first(&self) -> Option<u32> {
        let first = self.node(self.head).next;
        if first < self.head { Some(first) } else { None }
    }

    /// Takes out the first. Takes no memory.
    pub fn pop(&mut self) -> Option<u32> {
        let first = self.first()?;
        self.take(first);
        Some(first)
    }

    /// Whether nobody is in line.
    pub fn is_empty(&self) -> bool {
        self.first().is_none()
    }
}
