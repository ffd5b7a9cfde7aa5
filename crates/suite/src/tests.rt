mod heights;
mod meeting;
mod told;
