//! Which memory the next ticket of a pool lends: the one that stands there longest, whoever gave it. One thread holds all
//! tickets, so what is lent is one answer.
ghost use Rattle.std.specs.Prelude.{◌≤◌};
ghost use Rattle.memory.specs.Pools.{IsTicketOf};

use memory::{CleanMem, LinearMemory, Pool, Ticket};
use std::alloc::Global;
use std::process::Abort;
use std::sync::Wait;
use std::test::*;

/// What is left of a memory of `pages` pages.
fn closed(alloc: Global, pages: u32) -> Result<CleanMem, Fail>
    requires { pages ≤ 3 }
{
    let memory = LinearMemory::allocate(CleanMem::empty(alloc), pages, Some(3), 4)
        .ok()
        .ok_or("memory")?;
    Ok(memory.close())
}

fn give_memory<R: Wait>(rt: &R, pool: &Pool, ticket: &mut Ticket, memory: CleanMem)
    requires { IsTicketOf pool.now ticket.old }
    ensures { IsTicketOf pool.now ticket.new }
{
    pool.give(rt, ticket, memory);
}

fn lend_memory<R: Wait + Abort>(rt: &R, pool: &Pool, ticket: &mut Ticket, bytes: usize) -> CleanMem
    requires { IsTicketOf pool.now ticket.old }
    ensures { IsTicketOf pool.now ticket.new }
{
    let lent = pool.lend(rt, ticket);
    assert_eq!(rt; lent.len(), bytes);
    lent
}

#[test]
fn two_tickets_share_one_pool(rt: HostRuntime) -> Result<(), Fail> {
    let (pool, mut tickets) = Pool::new(rt.alloc(), 2)?;
    let mut second = tickets.pop().ok_or("ticket")?;
    let mut first = tickets.pop().ok_or("ticket")?;
    give_memory(&rt, &pool, &mut first, closed(rt.alloc(), 2)?);
    let lent = lend_memory(&rt, &pool, &mut second, 131_072);
    let _none = lend_memory(&rt, &pool, &mut first, 0);
    let _none = lend_memory(&rt, &pool, &mut second, 0);
    give_memory(&rt, &pool, &mut second, lent);
    let _back = lend_memory(&rt, &pool, &mut first, 131_072);
    Ok(())
}

#[test]
fn a_full_pool_drops_the_first_that_it_keeps(rt: HostRuntime) -> Result<(), Fail> {
    let (pool, mut tickets) = Pool::new(rt.alloc(), 1)?;
    let mut ticket = tickets.pop().ok_or("ticket")?;
    give_memory(&rt, &pool, &mut ticket, closed(rt.alloc(), 1)?);
    give_memory(&rt, &pool, &mut ticket, closed(rt.alloc(), 2)?);
    let _last = lend_memory(&rt, &pool, &mut ticket, 131_072);
    let _none = lend_memory(&rt, &pool, &mut ticket, 0);
    Ok(())
}

#[test]
fn two_tickets_fill_one_pool(rt: HostRuntime) -> Result<(), Fail> {
    let (pool, mut tickets) = Pool::new(rt.alloc(), 2)?;
    let mut second = tickets.pop().ok_or("ticket")?;
    let mut first = tickets.pop().ok_or("ticket")?;
    give_memory(&rt, &pool, &mut first, closed(rt.alloc(), 1)?);
    give_memory(&rt, &pool, &mut second, closed(rt.alloc(), 2)?);
    give_memory(&rt, &pool, &mut first, closed(rt.alloc(), 3)?);
    let _second = lend_memory(&rt, &pool, &mut second, 131_072);
    let _third = lend_memory(&rt, &pool, &mut first, 196_608);
    let _none = lend_memory(&rt, &pool, &mut second, 0);
    Ok(())
}
