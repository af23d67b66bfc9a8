// SPDX-License-Identifier: Apache-2.0
// Demand 3: the frames of two sections replaced, in either order, as one statement about the four calls. What is
// demanded is in specs/.
#![tactic(auto)]

ghost use Rattle.cbf_orders.specs.Orders.{edit, calls, OrderSays, Premises, TwoOrders};

use cbf::{LINE_LIMIT, Refusal};

// The answers of the two calls of an order; the second is made only where the first gave a file.
#[derive(Clone, Copy)]
pub struct Order {
    pub first: Result<usize, Refusal>,
    pub second: Option<Result<usize, Refusal>>,
}

#[derive(Clone, Copy)]
pub struct Orders {
    pub ij: Order,
    pub ji: Order,
}

// Replaces section i, and then section j of the file that this gave, up to its length.
pub fn one_order(
    file: &[u8],
    i: usize,
    f: &[i64],
    j: usize,
    g: &[i64],
    oi: &mut [u8],
    oij: &mut [u8],
) -> Order
    ensures order { OrderSays file.now (edit i f.now) (edit j g.now)
        (calls result oi.old oi.new oij.old oij.new) }
{
    let first = cbf::replace(file, LINE_LIMIT, i, f, oi);
    match first {
        Err(_) => Order {
            first,
            second: None,
        },
        Ok(n) => {
            let second = cbf::replace(&oi[..n], LINE_LIMIT, j, g, oij);
            Order {
                first,
                second: Some(second),
            }
        }
    }
}

// Both orders: section i first, with its outputs oi and oij, and section j first, with oj and oji.
pub fn both_orders(
    file: &[u8],
    i: usize,
    f: &[i64],
    j: usize,
    g: &[i64],
    oi: &mut [u8],
    oij: &mut [u8],
    oj: &mut [u8],
    oji: &mut [u8],
) -> Orders
    ensures orders { OrderSays file.now (edit i f.now) (edit j g.now)
        (calls result.ij oi.old oi.new oij.old oij.new)
        × OrderSays file.now (edit j g.now) (edit i f.now)
        (calls result.ji oj.old oj.new oji.old oji.new) }
    ensures demand_3 { (h : Premises file.now (edit i f.now) (edit j g.now))
        → TwoOrders file.now (edit i f.now) (edit j g.now) h
        (calls result.ij oi.old oi.new oij.old oij.new)
        (calls result.ji oj.old oj.new oji.old oji.new) }
{
    let ij = one_order(file, i, f, j, g, oi, oij);
    let ji = one_order(file, j, g, i, f, oj, oji);
    Orders { ij, ji }
}
