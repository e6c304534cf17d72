#![tactic(auto)]
// Rescues the images on standard input, 42 bytes each, one after the other and in place; prints how many they were, how many were refused
// and how many fields were mended, and then the images' bytes as they are. Of more than 1,048,576 bytes it reads as many.
use image::layout::SIZE_A2;
use image::rescue::rescue;
use std::{fmt, io};
use streams::read_full;
use wire::refusal::ACCEPTED;

// How many images were rescued, how many of them were refused, and how many fields were mended.
#[derive(Clone, Copy)]
struct Count {
    images: u64,
    refused: u64,
    fields: u64,
}

impl fmt::Display for Count {
    fn fmt<W: fmt::Write>(&self, f: &mut fmt::Formatter<W>) -> fmt::Result {
        let Count {
            images,
            refused,
            fields,
        } = *self;
        write!(
            f,
            "images {images:08x} refused {refused:08x} fields {fields:08x}"
        )
    }
}

// Rescues each whole image.
fn rescue_each(images: &mut [u8]) -> Count {
    let mut count = Count {
        images: 0,
        refused: 0,
        fields: 0,
    };
    for image in images.chunks_exact_mut(SIZE_A2) {
        let answer = rescue(image);
        count.images = count.images.wrapping_add(1);
        count.refused = count
            .refused
            .wrapping_add(u64::from(answer.code != ACCEPTED));
        count.fields = count.fields.wrapping_add(answer.count as u64);
    }
    count
}

// A reference to an array of this length is lent on as a slice with no proof; an array of a million zeros is not.
fn rescue_all(rt: &HostRuntime, room: &mut [u8; 1048576]) -> io::Result<()> {
    let n = read_full(&mut rt.stdin(), room)?;
    let images = &mut room[..n];
    let count = rescue_each(images);
    println!(rt; "{count}")?;
    rt.write_all(images)
}

fn main(rt: HostRuntime) -> io::Result<()> {
    let mut room = [0u8; 1048576];
    rescue_all(&rt, &mut room)
}
