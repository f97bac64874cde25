// Two workers on the planes of two routers.
mod beside_operator;
mod hold;
mod setting;
mod turns;
