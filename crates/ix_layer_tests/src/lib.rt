//! Tests of the layers under the calls, of the gate, of the kernel and of policies and their analysis, each by itself.
#![tactic(auto)]

#[cfg(test)]
mod audit;
#[cfg(test)]
mod blocks;
#[cfg(test)]
mod configs;
#[cfg(test)]
mod gates;
#[cfg(test)]
mod hospital;
#[cfg(test)]
mod inodes;
#[cfg(test)]
mod journals;
#[cfg(test)]
mod kernels;
#[cfg(test)]
mod labels;
#[cfg(test)]
mod links;
#[cfg(test)]
mod lists;
#[cfg(test)]
mod marks;
#[cfg(test)]
mod names;
#[cfg(test)]
mod numbers;
#[cfg(test)]
mod opens;
#[cfg(test)]
mod pipes;
#[cfg(test)]
mod policies;
#[cfg(test)]
mod policing;
#[cfg(test)]
mod procs;
#[cfg(test)]
mod servers;
#[cfg(test)]
mod streams;
