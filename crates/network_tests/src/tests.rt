mod delays;
mod floods;
mod nets;
mod regions;
mod topologies;
