//! Worked and generated stocks for peeling, the cap, the kernel's trial and putting back.
#![tactic(auto)]

#[cfg(test)]
mod back;
#[cfg(test)]
mod capped;
#[cfg(test)]
mod cored;
#[cfg(test)]
mod crowd;
#[cfg(test)]
mod generated;
#[cfg(test)]
mod stocks;
#[cfg(test)]
mod tried;
