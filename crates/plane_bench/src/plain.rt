// What a record costs without a plane: the loop, and a page that no other thread has.
ghost use Rattle.spie_base.specs.Shapes.{IsShape};

use crate::signatures::{Course, at};
use bloom_page::Page;
use gate_core::family_of;
use spie_base::{NoMemory, PageNo, PageShape};
use std::alloc::Global;

const FIRST: PageNo = PageNo { number: 0 };

pub fn read(course: &Course) -> u64 {
    let mut sum = 0u64;
    for number in 0..course.records {
        sum = sum.wrapping_add(u64::from(at(&course.sigs, number).bytes[0]));
    }
    sum
}

/// The set bits after the records.
pub fn page(alloc: Global, course: &Course, shape: &PageShape) -> Result<u64, NoMemory>
    requires { IsShape shape.now }
{
    let family = family_of(shape, FIRST);
    let mut page = Page::empty(alloc, shape.n)?;
    for number in 0..course.records {
        page.insert(&family.positions(at(&course.sigs, number)));
    }
    Ok(u64::from(page.fill()))
}
